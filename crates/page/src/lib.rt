// List: a foreman reads one to eight bearings at one moment. Every home shelf is raised with the maximum of the crew's vector and their stable vectors, and shown; then all are
// read, and the crew's vector becomes the entrywise maximum with every answer.
#![tactic(auto)]

ghost use Rattle.std.specs.Prelude.{◌≡◌, true, ◌<◌};
ghost use Rattle.book.specs.Layout.{counts_of};
ghost use Rattle.named.specs.Named.{is_list, all_below, base_fit};
ghost use Rattle.register.specs.Promises.{Listing};

use book::numbers::{Crew, Numbered};
use book::parts::{counts_of, wide};
use moment::{gather, merge_all, settle_all, tell_all};
use named_call::{base_fits, list_parts_fit};
use paper::answer::{Page, Refusal};
use register::home::{crew_vector, home_depot};

// The most bearings that a list may name, and the words that all of them are answered with.
pub const MOST_LISTED: usize = 8;

const PAGE_WORDS: usize = 64;

// Whether a list names one to eight bearings.
fn is_list(bearings: &[u32]) -> bool
    ensures { result ≡ is_list bearings.now }
{
    1 <= bearings.len() && bearings.len() <= MOST_LISTED
}

// Whether every bearing of a list is below the count.
fn all_below(bearings: &[u32], count: usize) -> bool
    ensures { result ≡ all_below count bearings.now }
{
    (0..bearings.len()).all(|i| wide(bearings[i]) < count)
}

fn list_at(book: &mut [u32], c: Crew, bearings: &[u32]) -> Result<Page, Refusal>
    requires { (base_fit book.old ≡ true) × (c.0 < (counts_of book.old).crews) × (is_list bearings.now ≡ true)
        × (all_below (counts_of book.old).bearings bearings.now ≡ true) }
    ensures { Listing book.old c.0 bearings.now result book.new }
{
    let n = counts_of(book);
    let d = home_depot(book, n, c);
    if !list_parts_fit(book, n, c, bearings, d) {
        return Err(Refusal::BadBook);
    }
    let mut offered = crew_vector(book, c);
    gather(book, n.depots, n.shelves, d, &mut offered);
    settle_all(book, n.depots, n.shelves, d, &offered);
    let mut words = [0; PAGE_WORDS];
    tell_all(book, n, d, bearings, &mut words);
    merge_all(book, n, c, d, bearings);
    Ok(Page {
        bearings: bearings.len(),
        depots: n.depots,
        words,
    })
}

// Refuses, in this order: BAD BOOK, BAD CREW, BAD LIST, BAD KEY.
pub fn list(book: &mut [u32], crew: u32, bearings: &[u32]) -> Result<Page, Refusal>
    ensures { Listing book.old crew bearings.now result book.new }
{
    if !base_fits(book) {
        return Err(Refusal::BadBook);
    }
    let n = counts_of(book);
    let c = Crew::checked(crew, n.crews).ok_or(Refusal::BadCrew)?;
    if !is_list(bearings) {
        return Err(Refusal::BadList);
    }
    if !all_below(bearings, n.bearings) {
        return Err(Refusal::BadKey);
    }
    list_at(book, c, bearings)
}
