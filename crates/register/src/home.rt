// A crew at its home shelf: what a read and a write begin with.
ghost use Rattle.std.specs.Prelude.{◌≡◌, ◌%◌, ◌<◌, ◌≤◌, ltb, length};
ghost use Rattle.loops.specs.Loops.{pick};
ghost use Rattle.order.specs.Vector.{vector_in};
ghost use Rattle.book.specs.Layout.{book_words, most_crews, home, crew_vector};
ghost use Rattle.shelf.specs.Asks.{Ready};
ghost use Rattle.links.specs.Send.{four_of};
ghost use Rattle.shelf.specs.Show.{settled};
ghost use Rattle.register.specs.Answers.{cut};

use book::layout::crew_at;
use book::numbers::{Bearing, Crew, Depot, Numbered, Shelf};
use book::parts::{Counts, home_of, wide};
use shelf::show::settle;
use std::array;

// The home depot of a crew.
pub fn home_depot(book: &[u32], n: Counts, c: Crew) -> Depot
    requires { (length book.now ≡ book_words) × (c.0 < most_crews) × (home book.now c.0 < n.depots) }
    ensures { result.0 ≡ home book.now c.0 }
{
    Depot::nth(wide(home_of(book, c)), n.depots)
}

// The shelf that a bearing lies on.
pub fn shelf_for(k: Bearing, n: Counts) -> Shelf
    requires { 0 < n.shelves }
    ensures { result.0 ≡ k.0 % n.shelves }
{
    let p = n.shelves;
    Shelf::nth(k.index() % p, p)
}

// The vector of a crew, copied out.
pub fn crew_vector(book: &[u32], c: Crew) -> [u32; 4]
    requires { (length book.now ≡ book_words) × (c.0 < most_crews) }
    ensures { result ≡ four_of (crew_vector book.now c.0) }
{
    let at = crew_at(c);
    array::from_fn(|x| book[at + x])
}

// Raise and show with the crew's vector.
pub fn settle_home(book: &mut [u32], n: usize, c: Crew, d: Depot, s: Shelf)
    requires { (length book.old ≡ book_words) × (c.0 < most_crews) × Ready n d.0 s.0 book.old }
    ensures { book.new ≡ settled n d.0 s.0 (crew_vector book.old c.0) book.old }
{
    let offered = crew_vector(book, c);
    settle(book, n, d, s, &offered);
}

// Entry x of a vector, or 0 where x is none of the n depots.
fn entry_below(v: &[u32], n: usize, x: usize) -> u32
    requires { n ≤ length v.now }
    ensures { result ≡ pick (ltb x n) (vector_in v.now x) 0 }
{
    if x < n {
        return v[x];
    }
    0
}

// The first n entries of a vector, in room for four.
pub fn cut_vector(v: &[u32], n: usize) -> [u32; 4]
    requires { n ≤ length v.now }
    ensures { result ≡ cut n (vector_in v.now) }
{
    array::from_fn(|x| entry_below(v, n, x))
}
