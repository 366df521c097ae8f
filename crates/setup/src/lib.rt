// Setup: four counts and a list of homes make a fresh register.
#![tactic(auto)]

ghost use Rattle.std.specs.Prelude.{◌≡◌, ◌≤◌, ltb, length, get_or};
ghost use Rattle.loops.specs.Loops.{every};
ghost use Rattle.book.specs.Layout.{book_words, most_crews};
ghost use Rattle.register.specs.Calls.{set_up};
ghost use Rattle.register.specs.Promises.{Setup};

use book::layout::{BOOK_WORDS, HOMES};
use book::parts::{Counts, wide};
use book::words::{clear_words, write_words};
use fit::counts::counts_fit;
use paper::answer::Refusal;

// The four counts, as numbers to count with.
fn counts_from(depots: u32, shelves: u32, bearings: u32, crews: u32) -> Counts
    ensures { result ≡ record { depots = depots; shelves = shelves; bearings = bearings; crews = crews } }
{
    Counts {
        depots: wide(depots),
        shelves: wide(shelves),
        bearings: wide(bearings),
        crews: wide(crews),
    }
}

// Whether every one of the first `crews` homes is a depot.
fn are_depots(homes: &[u32], crews: usize, depots: usize) -> bool
    requires { crews ≤ length homes.now }
    ensures { result ≡ every crews (λ c. ltb (get_or homes.now c 0) depots) }
{
    (0..crews).all(|crew| wide(homes[crew]) < depots)
}

// The four counts and the homes stand in the book, and 0 everywhere else.
fn write_fresh(
    book: &mut [u32],
    depots: u32,
    shelves: u32,
    bearings: u32,
    crews: u32,
    homes: &[u32],
)
    requires { (length book.old ≡ book_words) × (length homes.now ≤ most_crews) }
    ensures { book.new ≡ set_up (record { depots = depots; shelves = shelves; bearings = bearings; crews = crews }) homes.now }
{
    clear_words(book, 0, BOOK_WORDS);
    let counts = [depots, shelves, bearings, crews];
    write_words(book, 0, &counts);
    write_words(book, HOMES, homes);
}

// Setup: every clock, vector and stamp 0, links empty, bearings unwritten, unused words 0.
pub fn setup(
    book: &mut [u32],
    depots: u32,
    shelves: u32,
    bearings: u32,
    crews: u32,
    homes: &[u32],
) -> Result<(), Refusal>
    ensures { Setup book.old (record { depots = depots; shelves = shelves; bearings = bearings; crews = crews }) homes.now result book.new }
{
    if book.len() != BOOK_WORDS {
        return Err(Refusal::BadBook);
    }
    let n = counts_from(depots, shelves, bearings, crews);
    if !counts_fit(n) {
        return Err(Refusal::BadCounts);
    }
    if homes.len() != n.crews {
        return Err(Refusal::BadCounts);
    }
    if !are_depots(homes, n.crews, n.depots) {
        return Err(Refusal::BadDepot);
    }
    write_fresh(book, depots, shelves, bearings, crews, homes);
    Ok(())
}
