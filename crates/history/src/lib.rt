// A history as lines of text: the line of an entry, and the lines as they arrive.
#![tactic(auto)]

pub mod entry;
pub mod stream;
