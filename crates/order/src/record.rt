// The version record and the order of versions.
ghost use Rattle.std.specs.Prelude.{◌≡◌, ◌≤◌, min, length};
ghost use Rattle.loops.specs.Loops.{pick};
ghost use Rattle.order.specs.Order.{above};
ghost use Rattle.order.specs.Record.{record_words, most_depots, rank_of, rank_in};

use crate::vector::{is_zero, sum_of};

// The places of a record's words, and how many they are.
pub const BEARING: usize = 0;

pub const VALUE: usize = 1;

pub const DIAMETER: usize = 2;

pub const WIDTH: usize = 3;

pub const ORIGIN: usize = 4;

pub const VECTOR: usize = 5;

pub const RECORD_WORDS: usize = 9;

pub const MOST_DEPOTS: usize = 4;

// Whether the record a is the greater version, with n depots: by the sums, then entry by entry from depot 0 on, then by origin.
pub fn is_above(a: &[u32], b: &[u32], n: usize) -> bool
    requires { (length a.now ≡ record_words) × (length b.now ≡ record_words) × (n ≤ most_depots) }
    ensures { result ≡ above n (rank_of a.now) (rank_of b.now) }
{
    let sum = sum_of(&a[VECTOR..RECORD_WORDS], n);
    let other = sum_of(&b[VECTOR..RECORD_WORDS], n);
    if sum != other {
        return other < sum;
    }
    for x in 0..n {
        let place = VECTOR + x;
        if a[place] != b[place] {
            return b[place] < a[place];
        }
    }
    if a[ORIGIN] <= b[ORIGIN] {
        return false;
    }
    !is_zero(&a[VECTOR..RECORD_WORDS], n)
}

// How many entries count of a record that is said to be for so many depots: no more than it has room for.
fn entries_for(depots: u32) -> usize
    ensures { result ≡ min depots most_depots }
{
    (depots as usize).min(MOST_DEPOTS)
}

// Whether b, handed in as a record, is the greater version than a. One of the wrong length counts as unwritten.
pub fn exceeds(b: &[u32], a: &[u32], n: usize) -> bool
    requires { n ≤ most_depots }
    ensures { result ≡ above n (rank_in b.now) (rank_in a.now) }
{
    if b.len() != RECORD_WORDS {
        return false;
    }
    if a.len() != RECORD_WORDS {
        return !is_zero(&b[VECTOR..RECORD_WORDS], n);
    }
    is_above(b, a, n)
}

// Of two version records the greater, as the very part that was lent; the first if neither is greater. One of the wrong
// length counts as unwritten, and of more than four depots the four count that a record has room for.
pub fn greater<'a>(a: &'a [u32], b: &'a [u32], depots: u32) -> &'a [u32]
    ensures { result ≡ pick (above (min depots most_depots) (rank_in b.now) (rank_in a.now)) b.entry a.entry }
{
    if exceeds(b, a, entries_for(depots)) {
        return b;
    }
    a
}
