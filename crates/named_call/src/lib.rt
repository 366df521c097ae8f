// Whether the parts are fit that every call names, and those of a read, a write, a refresh, a move and a list.
#![tactic(auto)]

ghost use Rattle.std.specs.Prelude.{◌≡◌, true, ◌&&◌, ◌<◌, length, get_or};
ghost use Rattle.loops.specs.Loops.{every};
ghost use Rattle.order.specs.Record.{most_depots};
ghost use Rattle.book.specs.Layout.{book_words, most_shelves, most_crews, bearing_room};
ghost use Rattle.fit.specs.Fit.{Within, seen_fit};
ghost use Rattle.named.specs.Named.{show_fit, tick_parts, refresh_parts, home_parts, move_parts, listed_fit, page_parts, all_below, base_fit};

use book::layout::BOOK_WORDS;
use book::numbers::{Bearing, Crew, Depot, Numbered, Shelf};
use book::parts::{Counts, counts_of, wide};
use fit::counts::counts_fit;
use fit::crews::{crew_fits, homes_fit};
use fit::shelf::seen_fits;
use named_link::tick_parts_fit;
use named_show::show_fits;
use versions::version::stored_fits;

// Whether a book has its length, counts in range, and homes that are depots.
pub fn base_fits(book: &[u32]) -> bool
    ensures { result ≡ base_fit book.now }
{
    if book.len() != BOOK_WORDS {
        return false;
    }
    let n = counts_of(book);
    counts_fit(n) && homes_fit(book, n)
}

// Whether what a crew reads of a bearing is fit, at its home: depot d and shelf s.
#[tactic(auto, unfolding(named::specs::Named::home_parts))]
pub fn read_parts_fit(book: &[u32], n: Counts, c: Crew, k: Bearing, d: Depot, s: Shelf) -> bool
    requires { (length book.now ≡ book_words) × Within n × (c.0 < most_crews) × (k.0 < bearing_room) × (d.0 < most_depots) × (s.0 < most_shelves) }
    ensures { result ≡ home_parts n book.now c.0 k.0 d.0 s.0 }
{
    crew_fits(book, n, c) && stored_fits(book, n, d, k) && show_fits(book, n, d, s)
}

// Whether what a crew's write of a bearing reads and writes is fit, at its home: depot d and shelf s.
pub fn write_parts_fit(book: &[u32], n: Counts, c: Crew, k: Bearing, d: Depot, s: Shelf) -> bool
    requires { (length book.now ≡ book_words) × Within n × (c.0 < most_crews) × (k.0 < bearing_room) × (d.0 < most_depots) × (s.0 < most_shelves) }
    ensures { result ≡ home_parts n book.now c.0 k.0 d.0 s.0 && tick_parts n book.now d.0 s.0 }
{
    read_parts_fit(book, n, c, k, d, s) && tick_parts_fit(book, n, d, s)
}

// Whether the stamps seen on every shelf of a depot are in range.
fn seen_all_fit(book: &[u32], n: Counts, d: Depot) -> bool
    requires { (length book.now ≡ book_words) × Within n × (d.0 < most_depots) }
    ensures { result ≡ every n.shelves (seen_fit n book.now d.0) }
{
    (0..n.shelves).all(|i| seen_fits(book, n, d, Shelf::nth(i, n.shelves)))
}

// Whether what a refresh of a shelf reads and writes is fit.
#[tactic(auto, unfolding(named::specs::Named::refresh_parts))]
pub fn refresh_parts_fit(book: &[u32], n: Counts, d: Depot, s: Shelf) -> bool
    requires { (length book.now ≡ book_words) × Within n × (d.0 < most_depots) × (s.0 < most_shelves) }
    ensures { result ≡ refresh_parts n book.now d.0 s.0 }
{
    seen_all_fit(book, n, d) && show_fits(book, n, d, s)
}

// Whether what a crew's move to a depot reads is fit.
#[tactic(auto, unfolding(named::specs::Named::move_parts))]
pub fn move_parts_fit(book: &[u32], n: Counts, c: Crew, d: Depot) -> bool
    requires { (length book.now ≡ book_words) × Within n × (c.0 < most_crews) × (d.0 < most_depots) }
    ensures { result ≡ move_parts n book.now c.0 d.0 }
{
    crew_fits(book, n, c) && seen_all_fit(book, n, d)
}

// Whether what raise and show reads and writes is fit at every shelf of a depot.
fn shows_fit(book: &[u32], n: Counts, d: Depot) -> bool
    requires { (length book.now ≡ book_words) × Within n × (d.0 < most_depots) }
    ensures { result ≡ every n.shelves (show_fit n book.now d.0) }
{
    (0..n.shelves).all(|i| show_fits(book, n, d, Shelf::nth(i, n.shelves)))
}

// The bearing at a place of a list, all of whose numbers are below the count.
pub fn bearing_at(bearings: &[u32], i: usize, count: usize) -> Bearing
    requires { (i < length bearings.now) × (all_below count bearings.now ≡ true) }
    ensures { result.0 ≡ get_or bearings.now i 0 }
{
    Bearing::nth(wide(bearings[i]), count)
}

// Whether the stored version of every listed bearing is fit at a depot.
fn listed_fit(book: &[u32], n: Counts, d: Depot, bearings: &[u32]) -> bool
    requires { (length book.now ≡ book_words) × Within n × (d.0 < most_depots) × (all_below n.bearings bearings.now ≡ true) }
    ensures { result ≡ listed_fit n book.now d.0 bearings.now }
{
    (0..bearings.len()).all(|i| stored_fits(book, n, d, bearing_at(bearings, i, n.bearings)))
}

// Whether what a crew's list of bearings reads and writes is fit, at its home.
#[tactic(auto, unfolding(named::specs::Named::page_parts))]
pub fn list_parts_fit(book: &[u32], n: Counts, c: Crew, bearings: &[u32], d: Depot) -> bool
    requires { (length book.now ≡ book_words) × Within n × (c.0 < most_crews) × (d.0 < most_depots) × (all_below n.bearings bearings.now ≡ true) }
    ensures { result ≡ page_parts n book.now c.0 bearings.now d.0 }
{
    crew_fits(book, n, c) && listed_fit(book, n, d, bearings) && shows_fit(book, n, d)
}
