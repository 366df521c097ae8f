// Tick: the clock moves on by one; a heartbeat with it goes on every link out.
#![tactic(auto)]

ghost use Rattle.std.specs.Prelude.{◌≡◌, true, ◌<◌};
ghost use Rattle.book.specs.Layout.{counts_of};
ghost use Rattle.named.specs.Named.{base_fit};
ghost use Rattle.register.specs.Promises.{Tick};

use book::layout::{BEAT, END};
use book::numbers::{Depot, Shelf};
use book::parts::{clock_of, counts_of};
use links::send::{is_roomy, send};
use named_link::tick_parts_fit;
use paper::answer::Refusal;
use register::check::check_place;

fn tick_at(book: &mut [u32], d: Depot, s: Shelf) -> Result<(), Refusal>
    requires { (base_fit book.old ≡ true) × (d.0 < (counts_of book.old).depots) × (s.0 < (counts_of book.old).shelves) }
    ensures { Tick book.old d.0 s.0 result book.new }
{
    let n = counts_of(book);
    if !tick_parts_fit(book, n, d, s) {
        return Err(Refusal::BadBook);
    }
    let clock = clock_of(book, d, s);
    if END <= clock {
        return Err(Refusal::ClockAtEnd);
    }
    let depots = n.depots;
    if !is_roomy(book, depots, d, s) {
        return Err(Refusal::LinkFull);
    }
    let stamp = clock + 1;
    let beat = [BEAT, stamp, 0, 0, 0, 0, 0, 0, 0, 0];
    send(book, depots, d, s, stamp, &beat);
    Ok(())
}

// Refuses, in this order: BAD BOOK, BAD DEPOT, BAD SHELF, CLOCK AT END, LINK FULL. Room is judged on all links out before any message is sent.
pub fn tick(book: &mut [u32], depot: u32, shelf: u32) -> Result<(), Refusal>
    ensures { Tick book.old depot shelf result book.new }
{
    let (d, s) = check_place(book, depot, shelf)?;
    tick_at(book, d, s)
}
