// The calendar of the years 2000 to 2399: dates that exist, their day numbers, and the dates that follow an anchor in steps of months.
#![tactic(auto)]

pub mod answers;
pub mod dates;
