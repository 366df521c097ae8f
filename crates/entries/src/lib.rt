// The entries of a history: one beside another, and what lies in whose past.
#![tactic(auto)]

pub mod beside;
pub mod past;
