// The whole book, part after part.
#![tactic(auto)]

ghost use Rattle.std.specs.Prelude.{◌≡◌, ◌||◌, ◌<◌, eqb, length};
ghost use Rattle.loops.specs.Loops.{every};
ghost use Rattle.order.specs.Record.{most_depots};
ghost use Rattle.book.specs.Layout.{book_words, most_shelves, link_of};
ghost use Rattle.fit.specs.Fit.{Within, shelf_fit, link_fit, stored_fit, crews_fit, shelves_fit, links_fit, stores_fit, parts_fit, fit};

use book::layout::{BOOK_WORDS, Link};
use book::numbers::{Bearing, Crew, Depot, Numbered, Shelf};
use book::parts::{Counts, counts_of};
use fit::counts::counts_fit;
use fit::crews::{crew_fits, homes_fit};
use fit::shelf::shelf_fits;
use messages::link_fits;
use versions::version::stored_fits;

// Whether the vector of every crew is in range.
fn crews_fit(book: &[u32], n: Counts) -> bool
    requires { (length book.now ≡ book_words) × Within n }
    ensures { result ≡ crews_fit n book.now }
{
    (0..n.crews).all(|i| crew_fits(book, n, Crew::nth(i, n.crews)))
}

// Whether every shelf of a depot is fit.
fn shelves_of_fit(book: &[u32], n: Counts, d: Depot) -> bool
    requires { (length book.now ≡ book_words) × Within n × (d.0 < most_depots) }
    ensures { result ≡ every n.shelves (shelf_fit n book.now d.0) }
{
    (0..n.shelves).all(|i| shelf_fits(book, n, d, Shelf::nth(i, n.shelves)))
}

// Whether every shelf is fit.
fn shelves_fit(book: &[u32], n: Counts) -> bool
    requires { (length book.now ≡ book_words) × Within n }
    ensures { result ≡ shelves_fit n book.now }
{
    (0..n.depots).all(|i| shelves_of_fit(book, n, Depot::nth(i, n.depots)))
}

// Whether every link of a shelf out of a depot is fit; from a depot to itself there is none.
fn links_out_fit(book: &[u32], n: Counts, s: Shelf, from: Depot) -> bool
    requires { (length book.now ≡ book_words) × Within n × (s.0 < most_shelves) × (from.0 < most_depots) }
    ensures { result ≡ every n.depots (λ to. eqb from.0 to || link_fit n book.now s.0 from.0 (link_of s.0 from.0 to)) }
{
    (0..n.depots).all(|i| {
        let to = Depot::nth(i, n.depots);
        from == to || link_fits(book, n, s, from, Link::between(s, from, to))
    })
}

// Whether every link of a shelf is fit.
fn links_of_fit(book: &[u32], n: Counts, s: Shelf) -> bool
    requires { (length book.now ≡ book_words) × Within n × (s.0 < most_shelves) }
    ensures { result ≡ every n.depots (λ from. every n.depots (λ to. eqb from to || link_fit n book.now s.0 from (link_of s.0 from to))) }
{
    for i in 0..n.depots {
        if !links_out_fit(book, n, s, Depot::nth(i, n.depots)) {
            return false;
        }
    }
    true
}

// Whether every link is fit.
fn links_fit(book: &[u32], n: Counts) -> bool
    requires { (length book.now ≡ book_words) × Within n }
    ensures { result ≡ links_fit n book.now }
{
    for i in 0..n.shelves {
        if !links_of_fit(book, n, Shelf::nth(i, n.shelves)) {
            return false;
        }
    }
    true
}

// Whether every stored version of a depot is fit.
fn stores_of_fit(book: &[u32], n: Counts, d: Depot) -> bool
    requires { (length book.now ≡ book_words) × Within n × (d.0 < most_depots) }
    ensures { result ≡ every n.bearings (stored_fit n book.now d.0) }
{
    (0..n.bearings).all(|i| stored_fits(book, n, d, Bearing::nth(i, n.bearings)))
}

// Whether every stored version is fit.
fn stores_fit(book: &[u32], n: Counts) -> bool
    requires { (length book.now ≡ book_words) × Within n }
    ensures { result ≡ stores_fit n book.now }
{
    (0..n.depots).all(|i| stores_of_fit(book, n, Depot::nth(i, n.depots)))
}

// Whether every part but the counts is fit.
#[tactic(auto, unfolding(fit::specs::Fit::parts_fit))]
fn parts_fit(book: &[u32], n: Counts) -> bool
    requires { (length book.now ≡ book_words) × Within n }
    ensures { result ≡ parts_fit n book.now }
{
    homes_fit(book, n)
        && crews_fit(book, n)
        && shelves_fit(book, n)
        && links_fit(book, n)
        && stores_fit(book, n)
}

// Whether a book is fit. Any length of slice and any words get an answer; no word is looked at twice.
pub fn is_fit(book: &[u32]) -> bool
    ensures { result ≡ fit book.now }
{
    if book.len() != BOOK_WORDS {
        return false;
    }
    let n = counts_of(book);
    counts_fit(n) && parts_fit(book, n)
}
