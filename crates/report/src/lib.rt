// What is said of the lines of a history.
#![tactic(auto)]

pub mod conclude;
pub mod report;
pub mod say;
