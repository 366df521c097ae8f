// Whether the parts are fit that raise and show touches at a shelf: its stable vector, the links that arrive, and the places of what was taken from them.
#![tactic(auto)]

ghost use Rattle.std.specs.Prelude.{◌≡◌, ◌||◌, ℕ, ◌≤◌, ◌<◌, eqb, length};
ghost use Rattle.loops.specs.Loops.{every};
ghost use Rattle.order.specs.Record.{most_depots, bearing_of};
ghost use Rattle.book.specs.Layout.{book_words, most_shelves, bearing_room, links, link_room, slot, record_of};
ghost use Rattle.fit.specs.Fit.{Within, stored_fit};
ghost use Rattle.named.specs.Named.{arrival_fit, show_fit};

use book::layout::{LINK_ROOM, Link, SLOT_RECORD};
use book::numbers::{Bearing, Depot, Numbered, Shelf};
use book::parts::{Counts, held_of, taken_of, wide};
use fit::shelf::stable_fits;
use messages::messages_fit;
use versions::version::stored_fits;

// Whether the stored version at a depot of the bearing of the copy in slot i of a link is fit.
fn place_fits(book: &[u32], n: Counts, d: Depot, q: Link, i: usize) -> bool
    requires { (length book.now ≡ book_words) × (n.depots ≤ most_depots) × (d.0 < most_depots) × (q.0 < links) × (i < link_room)
        × (bearing_of (record_of (slot book.now q.0 i)) < n.bearings) × (n.bearings ≤ bearing_room) }
    ensures { result ≡ stored_fit n book.now d.0 (bearing_of (record_of (slot book.now q.0 i))) }
{
    let k = wide(book[q.slot_at(i) + SLOT_RECORD]);
    stored_fits(book, n, d, Bearing::nth(k, n.bearings))
}

// Whether those of the first `count` copies of a link are.
fn places_fit(book: &[u32], n: Counts, d: Depot, q: Link, count: usize) -> bool
    requires { (length book.now ≡ book_words) × (n.depots ≤ most_depots) × (d.0 < most_depots) × (q.0 < links) × (count ≤ link_room)
        × ((i : ℕ) → i < count → bearing_of (record_of (slot book.now q.0 i)) < n.bearings) × (n.bearings ≤ bearing_room) }
    ensures { result ≡ every count (λ i. stored_fit n book.now d.0 (bearing_of (record_of (slot book.now q.0 i)))) }
{
    (0..count).all(|i| place_fits(book, n, d, q, i))
}

// Whether the link into a shelf from a depot is fit, and the stored versions of its taken copies' bearings.
fn arrival_fits(book: &[u32], n: Counts, d: Depot, s: Shelf, from: Depot) -> bool
    requires { (length book.now ≡ book_words) × Within n × (d.0 < most_depots) × (s.0 < most_shelves) × (from.0 < most_depots) }
    ensures { result ≡ arrival_fit n book.now d.0 s.0 from.0 }
{
    let q = Link::between(s, from, d);
    let count = held_of(book, q);
    let taken = taken_of(book, q);
    if LINK_ROOM < count || count < taken {
        return false;
    }
    count == 0
        || messages_fit(book, n, s, from, q, taken, count) && places_fit(book, n, d, q, taken)
}

// The same for every depot but this one.
fn arrivals_fit(book: &[u32], n: Counts, d: Depot, s: Shelf) -> bool
    requires { (length book.now ≡ book_words) × Within n × (d.0 < most_depots) × (s.0 < most_shelves) }
    ensures { result ≡ every n.depots (λ from. eqb from d.0 || arrival_fit n book.now d.0 s.0 from) }
{
    (0..n.depots).all(|i| {
        let from = Depot::nth(i, n.depots);
        from == d || arrival_fits(book, n, d, s, from)
    })
}

// Whether what raise and show reads and writes at a shelf is fit.
#[tactic(auto, unfolding(named::specs::Named::show_fit))]
pub fn show_fits(book: &[u32], n: Counts, d: Depot, s: Shelf) -> bool
    requires { (length book.now ≡ book_words) × Within n × (d.0 < most_depots) × (s.0 < most_shelves) }
    ensures { result ≡ show_fit n book.now d.0 s.0 }
{
    stable_fits(book, n, d, s) && arrivals_fit(book, n, d, s)
}
