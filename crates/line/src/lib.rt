// The desk's lines to the byte: numbers, the lines of events, and how both and the desk's answers are printed.
#![tactic(auto)]

pub mod answers;
pub mod digits;
pub mod printer;
pub mod reader;
