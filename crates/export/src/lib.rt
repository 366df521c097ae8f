// The register as C calls it: each function makes one call and gives the number of its answer. include/depot_register.h declares them.
#![tactic(auto)]

pub mod audit;
pub mod days;
pub mod frames;
pub mod images;
pub mod journals;
pub mod moves;
pub mod pages;

ghost use Rattle.std.specs.Prelude.{◌≡◌, leb, length};
ghost use Rattle.std.proofs.lemmas.List.Edits.{sets};
ghost use Rattle.loops.specs.Loops.{pick};
ghost use Rattle.fit.specs.Fit.{fit};
ghost use Rattle.paper.specs.Calls.{read, write, tick, take, refresh};
ghost use Rattle.upkeep.specs.Requests.{setup, call, number_at, reply_to, book_after};
ghost use Rattle.room.specs.Room.{no_room, in_room, filled};
ghost use Rattle.card.specs.Card.{grams_answer, grams_number};
ghost use Rattle.telling.specs.Told.{read_words, write_words, grams_words, words_of, grams_out};
ghost use Rattle.who.specs.Who.{who_told};
ghost use Rattle.holders.specs.Told.{who_words, told_number, told_out};
ghost use Rattle.reply.specs.Printed.{answer_room};
ghost use Rattle.events.specs.Answering as events;
ghost use Rattle.events.specs.Answering.{answer_to};
ghost use Rattle.export.specs.Numbers.{greater_number};

use book::parts::wide;
use events::answer::answer_line;
use holders::tell_who;
use order::record::{MOST_DEPOTS, exceeds};
use paper::answer::Payload;
use paper::number::number_in;
use refresh::refresh;
use reply::ANSWER_ROOM;
use setup::setup;
use take::take;
use telling::{tell_grams, tell_read, tell_write};
use tick::tick;
use whole::is_fit;

#[unsafe(no_mangle)]
pub extern "C" fn depot_setup(
    book: &mut [u32],
    depots: u32,
    shelves: u32,
    bearings: u32,
    crews: u32,
    homes: &[u32],
) -> u32
    ensures value { result ≡ number_at book.old (setup (record { depots = depots; shelves = shelves; bearings = bearings; crews = crews }) homes.now) }
    ensures book_after { book.new ≡ book_after book.old (setup (record { depots = depots; shelves = shelves; bearings = bearings; crews = crews }) homes.now) }
{
    number_in(setup(book, depots, shelves, bearings, crews, homes))
}

#[unsafe(no_mangle)]
pub extern "C" fn depot_tick(book: &mut [u32], depot: u32, shelf: u32) -> u32
    ensures value { result ≡ number_at book.old (call (tick depot shelf)) }
    ensures book_after { book.new ≡ book_after book.old (call (tick depot shelf)) }
{
    number_in(tick(book, depot, shelf))
}

#[unsafe(no_mangle)]
pub extern "C" fn depot_take(book: &mut [u32], depot: u32, shelf: u32, from: u32) -> u32
    ensures value { result ≡ number_at book.old (call (take depot shelf from)) }
    ensures book_after { book.new ≡ book_after book.old (call (take depot shelf from)) }
{
    number_in(take(book, depot, shelf, from))
}

#[unsafe(no_mangle)]
pub extern "C" fn depot_refresh(book: &mut [u32], depot: u32, shelf: u32) -> u32
    ensures value { result ≡ number_at book.old (call (refresh depot shelf)) }
    ensures book_after { book.new ≡ book_after book.old (call (refresh depot shelf)) }
{
    number_in(refresh(book, depot, shelf))
}

#[unsafe(no_mangle)]
pub extern "C" fn depot_read(book: &mut [u32], crew: u32, bearing: u32, out: &mut [u32]) -> u32
    ensures value { result ≡ in_room read_words out.old (number_at book.old (call (read crew bearing))) no_room }
    ensures book_after { book.new ≡ in_room read_words out.old (book_after book.old (call (read crew bearing))) book.old }
    ensures out_after { out.new
        ≡ in_room read_words out.old (filled (words_of (reply_to book.old (call (read crew bearing)))) out.old) out.old }
{
    tell_read(book, crew, bearing, out)
}

#[unsafe(no_mangle)]
pub extern "C" fn depot_write(
    book: &mut [u32],
    crew: u32,
    bearing: u32,
    value: u32,
    diameter: u32,
    width: u32,
    out: &mut [u32],
) -> u32
    ensures value { result ≡ in_room write_words out.old (number_at book.old (call (write crew bearing (record { value = value; diameter = diameter; width = width })))) no_room }
    ensures book_after { book.new
        ≡ in_room write_words out.old (book_after book.old (call (write crew bearing (record { value = value; diameter = diameter; width = width })))) book.old }
    ensures out_after { out.new
        ≡ in_room write_words out.old (filled (words_of (reply_to book.old (call (write crew bearing
        (record { value = value; diameter = diameter; width = width }))))) out.old) out.old }
{
    let payload = Payload {
        value,
        diameter,
        width,
    };
    tell_write(book, crew, bearing, payload, out)
}

// The grams of the card of two words: the low and the high word of their bits.
#[unsafe(no_mangle)]
pub extern "C" fn depot_grams(diameter: u32, width: u32, out: &mut [u32]) -> u32
    ensures value { result ≡ in_room grams_words out.old (grams_number (grams_answer diameter width)) no_room }
    ensures out_after { out.new ≡ in_room grams_words out.old (filled (grams_out (grams_answer diameter width)) out.old) out.old }
{
    tell_grams(diameter, width, out)
}

#[unsafe(no_mangle)]
pub extern "C" fn depot_who_has(book: &[u32], depot: u32, bearing: u32, out: &mut [u32]) -> u32
    ensures value { result ≡ in_room who_words out.old (told_number (who_told book.now depot bearing)) no_room }
    ensures out_after { out.new ≡ in_room who_words out.old (told_out (who_told book.now depot bearing) out.old) out.old }
{
    tell_who(book, depot, bearing, out)
}

#[unsafe(no_mangle)]
pub extern "C" fn depot_is_fit(book: &[u32]) -> u32
    ensures { result ≡ pick (fit book.now) 1 0 }
{
    if is_fit(book) {
        return 1;
    }
    0
}

#[unsafe(no_mangle)]
pub extern "C" fn depot_greater(a: &[u32], b: &[u32], depots: u32) -> u32
    ensures { result ≡ greater_number depots a.now b.now }
{
    let n = wide(depots);
    if n == 0 {
        return 0;
    }
    if MOST_DEPOTS < n {
        return 0;
    }
    if exceeds(b, a, n) {
        return 1;
    }
    0
}

#[unsafe(no_mangle)]
pub extern "C" fn depot_line(book: &mut [u32], line: &[u8], out: &mut [u8]) -> usize
    ensures value { result ≡ pick (leb answer_room (length out.old)) (length (answer_to book.old line.now)) 0 }
    ensures book_after { book.new ≡ pick (leb answer_room (length out.old)) (events.book_after_line book.old line.now) book.old }
    ensures out_after { out.new
        ≡ pick (leb answer_room (length out.old)) (sets out.old 0 (answer_to book.old line.now)) out.old }
{
    if out.len() < ANSWER_ROOM {
        return 0;
    }
    answer_line(book, line, out, 0)
}
