// One look over a version record: its highest entry, its origin and its stamp; and whether it holds a card.
#![tactic(auto)]

ghost use Rattle.std.specs.Prelude.{◌≡◌, ◌≤◌, length};
ghost use Rattle.order.specs.Record.{most_depots, record_words, diameter_of, width_of, origin_of, vector_of};
ghost use Rattle.card.specs.Card.{card_fit};
ghost use Rattle.look.specs.Look.{highest, entry_of};

use book::parts::wide;
use card::card_fits;
use order::record::{DIAMETER, ORIGIN, VECTOR, WIDTH};

// What one look over a record's entries finds: the highest entry, the origin, and the stamp, which is the origin's entry, or 0 where the
// origin is no depot.
#[derive(Clone, Copy)]
pub struct Found {
    pub highest: u32,
    pub origin: usize,
    pub stamp: u32,
}

// The entry of depot o, or 0 where o is none of the n depots.
fn entry_of(version: &[u32], n: usize, o: usize) -> u32
    requires { (length version.now ≡ record_words) × (n ≤ most_depots) }
    ensures { result ≡ entry_of n o (vector_of version.now) }
{
    if n <= o {
        return 0;
    }
    version[VECTOR + o]
}

pub fn look(version: &[u32], n: usize) -> Found
    requires { (length version.now ≡ record_words) × (n ≤ most_depots) }
    ensures { (result.highest ≡ highest n (vector_of version.now)) × (result.origin ≡ origin_of version.now)
        × (result.stamp ≡ entry_of n (origin_of version.now) (vector_of version.now)) }
{
    let origin = wide(version[ORIGIN]);
    let mut highest: u32 = 0;
    for x in 0..n {
        highest = highest.max(version[VECTOR + x]);
    }
    let stamp = entry_of(version, n, origin);
    Found {
        highest,
        origin,
        stamp,
    }
}

// Whether a record holds a card.
pub fn has_card(version: &[u32]) -> bool
    requires { length version.now ≡ record_words }
    ensures { result ≡ card_fit (diameter_of version.now) (width_of version.now) }
{
    card_fits(version[DIAMETER], version[WIDTH])
}
