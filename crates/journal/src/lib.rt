// The journal: one record for each call that was done, and recovery, which replays them. docs/JOURNAL.md tells its bytes.
#![tactic(auto)]

pub mod record;
pub mod recover;
