// The counts, and their limits.
ghost use Rattle.std.specs.Prelude.{◌≡◌, ◌<◌};
ghost use Rattle.fit.specs.Fit.{between, counts_fit};

use book::parts::Counts;
use order::record::MOST_DEPOTS;

// How many bearings a register may have, and the other limits.
pub const MOST_BEARINGS: usize = 160;

pub const MOST_SHELVES: usize = 4;

pub const MOST_CREWS: usize = 16;

#[tactic(auto, unfolding(crate::specs::Fit::between))]
fn is_between(low: usize, x: usize, high: usize) -> bool
    ensures { result ≡ between low x high }
{
    low <= x && x <= high
}

// Whether the counts are in range.
#[tactic(auto, unfolding(crate::specs::Fit::counts_fit))]
pub fn counts_fit(n: Counts) -> bool
    ensures { result ≡ counts_fit n }
{
    is_between(1, n.depots, MOST_DEPOTS)
        && is_between(1, n.shelves, MOST_SHELVES)
        && is_between(1, n.bearings, MOST_BEARINGS)
        && is_between(1, n.crews, MOST_CREWS)
}
