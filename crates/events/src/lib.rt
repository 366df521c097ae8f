// The desk's events: one line to one answer.
#![tactic(auto)]

pub mod answer;
