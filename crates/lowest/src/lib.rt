// The lowest stamp seen from each other depot, over all shelves of a depot, in one pass.
#![tactic(auto)]

ghost use Rattle.std.specs.Prelude.{◌≡◌, ◌&&◌, not, ◌≤◌, ◌<◌, eqb, ltb, length};
ghost use Rattle.loops.specs.Loops.{pick};
ghost use Rattle.order.specs.Record.{most_depots};
ghost use Rattle.book.specs.Layout.{book_words, most_shelves};
ghost use Rattle.links.specs.Send.{lowest_seen, four_of};

use book::layout::{END, seen_at};
use book::numbers::{Depot, Numbered, Shelf};

// What is told of depot x, of n: its stamp; 0 for this depot itself, and past the last.
fn of_other(stamp: u32, n: usize, d: Depot, x: usize) -> u32
    requires { d.0 < most_depots }
    ensures { result ≡ pick (ltb x n && not (eqb x d.0)) stamp 0 }
{
    if n <= x {
        return 0;
    }
    if x == d.index() {
        return 0;
    }
    stamp
}

// For each other depot of n, the lowest stamp seen over the p shelves of a depot.
pub fn lowest_seen(book: &[u32], n: usize, p: usize, d: Depot) -> [u32; 4]
    requires { (length book.now ≡ book_words) × (n ≤ most_depots) × (p ≤ most_shelves) × (d.0 < most_depots) }
    ensures { result ≡ four_of (lowest_seen n p d.0 book.now) }
{
    let mut first = END;
    let mut second = END;
    let mut third = END;
    let mut fourth = END;
    for s in 0..p {
        let at = seen_at(d, Shelf::nth(s, p));
        first = first.min(book[at]);
        second = second.min(book[at + 1]);
        third = third.min(book[at + 2]);
        fourth = fourth.min(book[at + 3]);
    }
    [
        of_other(first, n, d, 0),
        of_other(second, n, d, 1),
        of_other(third, n, d, 2),
        of_other(fourth, n, d, 3),
    ]
}
