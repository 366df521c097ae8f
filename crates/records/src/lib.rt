// The kinds of record of a journal, and what each asks. docs/JOURNAL.md tells them.
#![tactic(auto)]

pub mod asking;
pub mod kinds;
