// Take: the first untaken message of a link is taken.
#![tactic(auto)]

ghost use Rattle.std.specs.Prelude.{◌≡◌, true, ◌<◌};
ghost use Rattle.book.specs.Layout.{counts_of};
ghost use Rattle.named.specs.Named.{base_fit};
ghost use Rattle.register.specs.Promises.{Take};

use book::layout::Link;
use book::numbers::{Depot, Shelf};
use book::parts::{counts_of, held_of, taken_of};
use named_link::take_parts_fit;
use paper::answer::Refusal;
use register::check::check_link;
use taking::take_one;

fn take_at(book: &mut [u32], d: Depot, s: Shelf, from: Depot) -> Result<(), Refusal>
    requires { (base_fit book.old ≡ true) × (d.0 < (counts_of book.old).depots) × (from.0 < (counts_of book.old).depots) × (s.0 < (counts_of book.old).shelves) }
    ensures { Take book.old d.0 s.0 from.0 result book.new }
{
    if d == from {
        return Err(Refusal::SameDepot);
    }
    if !take_parts_fit(book, counts_of(book), d, s, from) {
        return Err(Refusal::BadBook);
    }
    let q = Link::between(s, from, d);
    let count = held_of(book, q);
    let done = taken_of(book, q);
    if count <= done {
        return Err(Refusal::EmptyLink);
    }
    take_one(book, d, s, from);
    Ok(())
}

// Refuses, in this order: BAD BOOK, BAD DEPOT (either), BAD SHELF, SAME DEPOT, EMPTY LINK.
pub fn take(book: &mut [u32], depot: u32, shelf: u32, from: u32) -> Result<(), Refusal>
    ensures { Take book.old depot shelf from result book.new }
{
    let (d, s, o) = check_link(book, depot, shelf, from)?;
    take_at(book, d, s, o)
}
