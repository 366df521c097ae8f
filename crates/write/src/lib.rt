// Write: the checks, in the order of the paper's table; then the version is made, stored if greater and sent.
#![tactic(auto)]

ghost use Rattle.std.specs.Prelude.{◌≡◌, true, ◌<◌};
ghost use Rattle.book.specs.Layout.{counts_of};
ghost use Rattle.named.specs.Named.{base_fit};
ghost use Rattle.register.specs.Promises.{Write};

use book::layout::{END, crew_at};
use book::numbers::{Bearing, Crew, Numbered};
use book::parts::{clock_of, counts_of};
use card::card_of;
use links::send::is_roomy;
use making::write_version;
use named_call::write_parts_fit;
use paper::answer::{LAST_DAY, Payload, Refusal, Written};
use register::check::check_asked;
use register::home::{home_depot, shelf_for};

fn write_at(book: &mut [u32], c: Crew, k: Bearing, payload: Payload) -> Result<Written, Refusal>
    requires { (base_fit book.old ≡ true) × (c.0 < (counts_of book.old).crews) × (k.0 < (counts_of book.old).bearings) }
    ensures { Write book.old c.0 k.0 payload result book.new }
{
    let n = counts_of(book);
    let depots = n.depots;
    let d = home_depot(book, n, c);
    let s = shelf_for(k, n);
    if !write_parts_fit(book, n, c, k, d, s) {
        return Err(Refusal::BadBook);
    }
    if LAST_DAY < payload.value {
        return Err(Refusal::BadDate);
    }
    let card = card_of(payload.diameter, payload.width).ok_or(Refusal::BadCard)?;
    let clock = clock_of(book, d, s);
    if clock < book[crew_at(c) + d.index()] {
        return Err(Refusal::Wait);
    }
    if END <= clock {
        return Err(Refusal::ClockAtEnd);
    }
    if !is_roomy(book, depots, d, s) {
        return Err(Refusal::LinkFull);
    }
    Ok(write_version(book, depots, c, k, d, s, clock + 1, payload.value, card))
}

// Refuses, in this order: BAD BOOK, BAD CREW, BAD KEY, BAD DATE, BAD CARD, WAIT, CLOCK AT END, LINK FULL. Room is judged before raising.
pub fn write(
    book: &mut [u32],
    crew: u32,
    bearing: u32,
    payload: Payload,
) -> Result<Written, Refusal>
    ensures { Write book.old crew bearing payload result book.new }
{
    let (c, k) = check_asked(book, crew, bearing)?;
    write_at(book, c, k, payload)
}
