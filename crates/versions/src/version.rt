// Versions: stored, and carried by a link.
ghost use Rattle.std.specs.Prelude.{◌≡◌, ◌%◌, ◌≤◌, ◌<◌, length};
ghost use Rattle.order.specs.Record.{most_depots, record_words};
ghost use Rattle.book.specs.Layout.{book_words, bearing_room};
ghost use Rattle.fit.specs.Fit.{carried_fit, kept_fit, stored_fit};

use book::layout::{END, stored_at};
use book::numbers::{Bearing, Depot, Numbered, Shelf};
use book::parts::{Counts, wide};
use look::{has_card, look};
use order::record::{BEARING, RECORD_WORDS};

// The shelf of a bearing. A division by a numeral is cheaper than one by a number.
fn shelf_of(bearing: usize, shelves: usize) -> usize
    requires { 0 < shelves }
    ensures { result ≡ bearing % shelves }
{
    match shelves {
        2 => bearing % 2,
        3 => bearing % 3,
        4 => bearing % 4,
        _ => bearing % shelves,
    }
}

// Whether a record may be carried by the link of a shelf out of a depot.
pub fn carried_fits(version: &[u32], n: Counts, s: Shelf, from: Depot) -> bool
    requires { (length version.now ≡ record_words) × (n.depots ≤ most_depots) × (0 < n.shelves) }
    ensures { result ≡ carried_fit n s.0 from.0 version.now }
{
    let found = look(version, n.depots);
    let bearing = wide(version[BEARING]);
    found.highest <= END
        && found.stamp != 0
        && has_card(version)
        && found.origin == from.index()
        && bearing < n.bearings
        && shelf_of(bearing, n.shelves) == s.index()
}

// Whether a record may be stored for a bearing.
fn kept_fits(version: &[u32], n: Counts, k: Bearing) -> bool
    requires { (length version.now ≡ record_words) × (n.depots ≤ most_depots) }
    ensures { result ≡ kept_fit n k.0 version.now }
{
    let found = look(version, n.depots);
    if found.highest == 0 {
        return true;
    }
    found.highest <= END
        && found.stamp != 0
        && has_card(version)
        && wide(version[BEARING]) == k.index()
}

// Whether the stored version of a bearing at a depot is fit.
pub fn stored_fits(book: &[u32], n: Counts, d: Depot, k: Bearing) -> bool
    requires { (length book.now ≡ book_words) × (n.depots ≤ most_depots) × (d.0 < most_depots) × (k.0 < bearing_room) }
    ensures { result ≡ stored_fit n book.now d.0 k.0 }
{
    let at = stored_at(d, k);
    kept_fits(&book[at..at + RECORD_WORDS], n, k)
}
