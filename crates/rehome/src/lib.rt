// Move: a crew gets a new home, where every shelf has seen what the crew has.
#![tactic(auto)]

ghost use Rattle.std.specs.Prelude.{◌≡◌, true, ◌||◌, ◌<◌, eqb, length, set};
ghost use Rattle.order.specs.Record.{most_depots};
ghost use Rattle.book.specs.Layout.{book_words, most_crews, home_at, counts_of, home};
ghost use Rattle.fit.specs.Fit.{Within};
ghost use Rattle.named.specs.Named.{base_fit};
ghost use Rattle.register.specs.Table.{arrived};
ghost use Rattle.register.specs.Promises.{Move};

use book::layout::home_at;
use book::numbers::{Crew, Depot, Numbered};
use book::parts::{Counts, counts_of, home_of, wide};
use lowest::lowest_seen;
use named_call::{base_fits, move_parts_fit};
use order::vector::is_covered;
use paper::answer::Refusal;
use register::home::crew_vector;
use shelf::show::word;

// Whether every shelf of a depot has seen what a crew has, from every other depot.
fn has_seen(book: &[u32], n: Counts, c: Crew, d: Depot) -> bool
    requires { (length book.now ≡ book_words) × Within n × (n ≡ counts_of book.now) × (c.0 < most_crews) × (d.0 < most_depots) }
    ensures { result ≡ arrived book.now c.0 d.0 }
{
    let vector = crew_vector(book, c);
    let lowest = lowest_seen(book, n.depots, n.shelves, d);
    is_covered(&vector, &lowest, n.depots, d.index())
}

// Whether a depot is open to a crew: its home always is.
fn is_open(book: &[u32], n: Counts, c: Crew, d: Depot) -> bool
    requires { (length book.now ≡ book_words) × Within n × (n ≡ counts_of book.now) × (c.0 < most_crews) × (d.0 < most_depots) }
    ensures { result ≡ eqb d.0 (home book.now c.0) || arrived book.now c.0 d.0 }
{
    if d.index() == wide(home_of(book, c)) {
        return true;
    }
    has_seen(book, n, c, d)
}

// The crew's home becomes the depot.
fn set_home(book: &mut [u32], c: Crew, d: Depot)
    requires { (length book.old ≡ book_words) × (c.0 < most_crews) × (d.0 < most_depots) }
    ensures { book.new ≡ set book.old (home_at c.0) d.0 }
{
    book[home_at(c)] = word(d.index());
}

fn move_at(book: &mut [u32], c: Crew, d: Depot) -> Result<(), Refusal>
    requires { (base_fit book.old ≡ true) × (c.0 < (counts_of book.old).crews) × (d.0 < (counts_of book.old).depots) }
    ensures { Move book.old c.0 d.0 result book.new }
{
    let n = counts_of(book);
    if !move_parts_fit(book, n, c, d) {
        return Err(Refusal::BadBook);
    }
    if !is_open(book, n, c, d) {
        return Err(Refusal::NotHereYet);
    }
    set_home(book, c, d);
    Ok(())
}

// Refuses, in this order: BAD BOOK, BAD CREW, BAD DEPOT, NOT HERE YET. One word moves: the crew's home.
pub fn move_crew(book: &mut [u32], crew: u32, depot: u32) -> Result<(), Refusal>
    ensures { Move book.old crew depot result book.new }
{
    if !base_fits(book) {
        return Err(Refusal::BadBook);
    }
    let n = counts_of(book);
    let c = Crew::checked(crew, n.crews).ok_or(Refusal::BadCrew)?;
    let d = Depot::checked(depot, n.depots).ok_or(Refusal::BadDepot)?;
    move_at(book, c, d)
}
