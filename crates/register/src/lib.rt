// What the calls share: the checks of numbers, a crew at its home, and the promise of each call. The calls are in crates of their own.
#![tactic(auto)]

pub mod check;
pub mod home;
pub mod version;
