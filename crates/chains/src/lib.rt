// What leads to what, in one step or in several.
#![tactic(auto)]

pub mod table;
