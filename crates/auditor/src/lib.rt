// An auditor for histories of reads and writes, on the order of versions alone.
#![tactic(auto)]

pub mod audit;
pub mod finding;
pub mod search;
