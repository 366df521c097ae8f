// Shelves: the clock, the stable vector, the stamps seen.
ghost use Rattle.std.specs.Prelude.{◌≡◌, ◌≤◌, ◌<◌, length};
ghost use Rattle.order.specs.Record.{most_depots};
ghost use Rattle.book.specs.Layout.{book_words, most_shelves};
ghost use Rattle.fit.specs.Fit.{clock_fit, stable_fit, seen_fit, shelf_fit};

use crate::range::others_in_range;
use book::layout::{END, clock_at, seen_at, stable_at};
use book::numbers::{Depot, Numbered, Shelf};
use book::parts::Counts;
use order::record::MOST_DEPOTS;

// Whether the clock of a shelf is in range.
pub fn clock_fits(book: &[u32], d: Depot, s: Shelf) -> bool
    requires { (length book.now ≡ book_words) × (d.0 < most_depots) × (s.0 < most_shelves) }
    ensures { result ≡ clock_fit book.now d.0 s.0 }
{
    book[clock_at(d, s)] <= END
}

// Whether the stable vector of a shelf is in range, and its own entry 0.
pub fn stable_fits(book: &[u32], n: Counts, d: Depot, s: Shelf) -> bool
    requires { (length book.now ≡ book_words) × (n.depots ≤ most_depots) × (d.0 < most_depots) × (s.0 < most_shelves) }
    ensures { result ≡ stable_fit n book.now d.0 s.0 }
{
    let own = d.index();
    let at = stable_at(d, s);
    book[at + own] == 0 && others_in_range(&book[at..at + MOST_DEPOTS], n.depots, own)
}

// Whether the stamps that a shelf has seen are in range.
pub fn seen_fits(book: &[u32], n: Counts, d: Depot, s: Shelf) -> bool
    requires { (length book.now ≡ book_words) × (n.depots ≤ most_depots) × (d.0 < most_depots) × (s.0 < most_shelves) }
    ensures { result ≡ seen_fit n book.now d.0 s.0 }
{
    let at = seen_at(d, s);
    others_in_range(&book[at..at + MOST_DEPOTS], n.depots, d.index())
}

// Whether a shelf of a depot is fit.
#[tactic(auto, unfolding(crate::specs::Fit::shelf_fit))]
pub fn shelf_fits(book: &[u32], n: Counts, d: Depot, s: Shelf) -> bool
    requires { (length book.now ≡ book_words) × (n.depots ≤ most_depots) × (d.0 < most_depots) × (s.0 < most_shelves) }
    ensures { result ≡ shelf_fit n book.now d.0 s.0 }
{
    clock_fits(book, d, s) && stable_fits(book, n, d, s) && seen_fits(book, n, d, s)
}
