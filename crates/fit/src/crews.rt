// Crews: their homes and their vectors.
ghost use Rattle.std.specs.Prelude.{◌≡◌, ◌≤◌, ◌<◌, length};
ghost use Rattle.order.specs.Record.{most_depots};
ghost use Rattle.book.specs.Layout.{book_words, most_crews};
ghost use Rattle.fit.specs.Fit.{Within, crew_fit, homes_fit};

use crate::range::others_in_range;
use book::layout::crew_at;
use book::numbers::{Crew, Numbered};
use book::parts::{Counts, home_of, wide};
use order::record::MOST_DEPOTS;

// Whether the home of every crew is a depot.
pub fn homes_fit(book: &[u32], n: Counts) -> bool
    requires { (length book.now ≡ book_words) × Within n }
    ensures { result ≡ homes_fit n book.now }
{
    (0..n.crews).all(|i| wide(home_of(book, Crew::nth(i, n.crews))) < n.depots)
}

// Whether the vector of a crew is in range.
pub fn crew_fits(book: &[u32], n: Counts, c: Crew) -> bool
    requires { (length book.now ≡ book_words) × (n.depots ≤ most_depots) × (c.0 < most_crews) }
    ensures { result ≡ crew_fit n book.now c.0 }
{
    let at = crew_at(c);
    others_in_range(&book[at..at + MOST_DEPOTS], n.depots, n.depots)
}
