// Refresh: raise and show with, for each other depot, the lowest stamp seen over all shelves here.
#![tactic(auto)]

ghost use Rattle.std.specs.Prelude.{◌≡◌, true, ◌<◌};
ghost use Rattle.book.specs.Layout.{counts_of};
ghost use Rattle.named.specs.Named.{base_fit};
ghost use Rattle.register.specs.Promises.{Refresh};

use book::numbers::{Depot, Shelf};
use book::parts::counts_of;
use lowest::lowest_seen;
use named_call::refresh_parts_fit;
use paper::answer::Refusal;
use register::check::check_place;
use shelf::show::settle;

fn refresh_at(book: &mut [u32], d: Depot, s: Shelf) -> Result<(), Refusal>
    requires { (base_fit book.old ≡ true) × (d.0 < (counts_of book.old).depots) × (s.0 < (counts_of book.old).shelves) }
    ensures { Refresh book.old d.0 s.0 result book.new }
{
    let n = counts_of(book);
    if !refresh_parts_fit(book, n, d, s) {
        return Err(Refusal::BadBook);
    }
    let offered = lowest_seen(book, n.depots, n.shelves, d);
    settle(book, n.depots, d, s, &offered);
    Ok(())
}

// Refuses, in this order: BAD BOOK, BAD DEPOT, BAD SHELF.
pub fn refresh(book: &mut [u32], depot: u32, shelf: u32) -> Result<(), Refusal>
    ensures { Refresh book.old depot shelf result book.new }
{
    let (d, s) = check_place(book, depot, shelf)?;
    refresh_at(book, d, s)
}
