// Whether the parts are fit that a tick and a take name: the clock and the heads of the links out, or the stamp seen and what waits on a link in.
#![tactic(auto)]

ghost use Rattle.std.specs.Prelude.{◌≡◌, ◌<◌, length};
ghost use Rattle.order.specs.Record.{most_depots};
ghost use Rattle.book.specs.Layout.{book_words, most_shelves};
ghost use Rattle.fit.specs.Fit.{Within};
ghost use Rattle.named.specs.Named.{heads_out_fit, tick_parts, take_parts};

use book::layout::{END, LINK_ROOM, Link, seen_at};
use book::numbers::{Depot, Numbered, Shelf};
use book::parts::{Counts, held_of, taken_of};
use fit::shelf::clock_fits;
use messages::{head_fits, waiting_fit};

// Whether the head of every link out of a shelf is fit; a depot has no link to itself.
fn heads_out_fit(book: &[u32], n: Counts, d: Depot, s: Shelf) -> bool
    requires { (length book.now ≡ book_words) × Within n × (d.0 < most_depots) × (s.0 < most_shelves) }
    ensures { result ≡ heads_out_fit n book.now d.0 s.0 }
{
    (0..n.depots).all(|i| {
        let to = Depot::nth(i, n.depots);
        to == d || head_fits(book, Link::between(s, d, to))
    })
}

// Whether what a tick of a shelf reads and writes is fit.
#[tactic(auto, unfolding(named::specs::Named::tick_parts))]
pub fn tick_parts_fit(book: &[u32], n: Counts, d: Depot, s: Shelf) -> bool
    requires { (length book.now ≡ book_words) × Within n × (d.0 < most_depots) × (s.0 < most_shelves) }
    ensures { result ≡ tick_parts n book.now d.0 s.0 }
{
    clock_fits(book, d, s) && heads_out_fit(book, n, d, s)
}

// Whether what a take of a shelf from a depot reads and writes is fit.
pub fn take_parts_fit(book: &[u32], n: Counts, d: Depot, s: Shelf, from: Depot) -> bool
    requires { (length book.now ≡ book_words) × Within n × (d.0 < most_depots) × (s.0 < most_shelves) × (from.0 < most_depots) }
    ensures { result ≡ take_parts n book.now d.0 s.0 from.0 }
{
    if END < book[seen_at(d, s) + from.index()] {
        return false;
    }
    let q = Link::between(s, from, d);
    let count = held_of(book, q);
    let taken = taken_of(book, q);
    if LINK_ROOM < count {
        return false;
    }
    if count < taken {
        return false;
    }
    waiting_fit(book, n, s, from, q, taken, count - taken)
}
