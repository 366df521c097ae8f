// Whether versions are fit: stored, and carried by a link.
#![tactic(auto)]

pub mod version;
