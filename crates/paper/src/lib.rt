// The paper: what a call on a register answers, as docs/DESK.md tells.
#![tactic(auto)]

pub mod answer;
pub mod number;
