// Vectors over D depots, the version record, and the order of versions.
#![tactic(auto)]

pub mod record;
pub mod vector;
