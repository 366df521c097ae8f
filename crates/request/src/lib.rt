// What is asked of a register by its numbers, and one reply for whatever is asked.
#![tactic(auto)]

pub mod ask;
pub mod reply;
