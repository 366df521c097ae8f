// Readers and writers of the book's parts, one word or two at a time.
ghost use Rattle.std.specs.Prelude.{◌≡◌, ◌+◌, ◌<◌, length, set};
ghost use Rattle.order.specs.Record.{most_depots};
ghost use Rattle.book.specs.Layout.{book_words, most_shelves, most_crews, links};
ghost use Rattle.book.specs.Layout.{counts_of, home, clock, held, taken, clock_at, seen_at, held_at, taken_at};

use crate::layout::{BEARINGS, CREWS, DEPOTS, Link, SHELVES, clock_at, home_at, seen_at};
use crate::numbers::{Crew, Depot, Numbered, Shelf};

// A word as a number to count with.
pub fn wide(word: u32) -> usize
    ensures { result ≡ word }
{
    word as usize
}

// The four counts of a register.
#[derive(Clone, Copy)]
pub struct Counts {
    pub depots: usize,
    pub shelves: usize,
    pub bearings: usize,
    pub crews: usize,
}

// The counts that stand in the book.
pub fn counts_of(book: &[u32]) -> Counts
    requires { length book.now ≡ book_words }
    ensures { result ≡ counts_of book.now }
{
    Counts {
        depots: wide(book[DEPOTS]),
        shelves: wide(book[SHELVES]),
        bearings: wide(book[BEARINGS]),
        crews: wide(book[CREWS]),
    }
}

// The home of a crew.
pub fn home_of(book: &[u32], c: Crew) -> u32
    requires { (length book.now ≡ book_words) × (c.0 < most_crews) }
    ensures { result ≡ home book.now c.0 }
{
    book[home_at(c)]
}

// The clock of a shelf.
pub fn clock_of(book: &[u32], d: Depot, s: Shelf) -> u32
    requires { (length book.now ≡ book_words) × (d.0 < most_depots) × (s.0 < most_shelves) }
    ensures { result ≡ clock book.now d.0 s.0 }
{
    book[clock_at(d, s)]
}

// The clock of a shelf stands at a stamp.
pub fn set_clock(book: &mut [u32], d: Depot, s: Shelf, stamp: u32)
    requires { (length book.old ≡ book_words) × (d.0 < most_depots) × (s.0 < most_shelves) }
    ensures { book.new ≡ set book.old (clock_at d.0 s.0) stamp }
{
    book[clock_at(d, s)] = stamp;
}

// A shelf has seen a stamp from a depot.
pub fn set_seen(book: &mut [u32], d: Depot, s: Shelf, from: Depot, stamp: u32)
    requires { (length book.old ≡ book_words) × (d.0 < most_depots) × (s.0 < most_shelves) × (from.0 < most_depots) }
    ensures { book.new ≡ set book.old (seen_at d.0 s.0 + from.0) stamp }
{
    book[seen_at(d, s) + from.index()] = stamp;
}

// How many messages a link holds.
pub fn held_of(book: &[u32], q: Link) -> usize
    requires { (length book.now ≡ book_words) × (q.0 < links) }
    ensures { result ≡ held book.now q.0 }
{
    wide(book[q.held_at()])
}

// How many of them are taken.
pub fn taken_of(book: &[u32], q: Link) -> usize
    requires { (length book.now ≡ book_words) × (q.0 < links) }
    ensures { result ≡ taken book.now q.0 }
{
    wide(book[q.taken_at()])
}

// A link holds so many messages, of which so many are taken.
pub fn set_head(book: &mut [u32], q: Link, count: u32, done: u32)
    requires { (length book.old ≡ book_words) × (q.0 < links) }
    ensures { book.new ≡ set (set book.old (held_at q.0) count) (taken_at q.0) done }
{
    book[q.held_at()] = count;
    book[q.taken_at()] = done;
}
