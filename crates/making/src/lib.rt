// The version that a write makes: raise and show, the crew is stamped, and the version is stored if greater than what is there and sent on every link out of the shelf.
// Whether it may be made is for the caller to have checked.
#![tactic(auto)]

ghost use Rattle.std.specs.Prelude.{◌≡◌, ◌∷◌, ◌+◌, ◌<◌, ◌≤◌, length, set, Ok};
ghost use Rattle.order.specs.Order.{above};
ghost use Rattle.order.specs.Record.{most_depots, record_words, bearing_of, rank_of};
ghost use Rattle.book.specs.Layout.{book_words, bearing_room, most_crews, copy_kind, stored, crew_vector, crew_at};
ghost use Rattle.card.specs.Card.{word_of};
ghost use Rattle.shelf.specs.Show.{kept_in, settled};
ghost use Rattle.shelf.specs.Asks.{Ready};
ghost use Rattle.register.specs.Calls.{with_entry, payload_from, version_words, new_stamp, is_current, write_book};
ghost use Rattle.register.specs.Checks.{MayWrite};
ghost use Rattle.paper.specs.Answers.{paper_write};
ghost use Rattle.register.specs.Answers.{cut, written};

use book::layout::{COPY, SLOT_RECORD, SLOT_WORDS, crew_at, stored_at};
use book::numbers::{Bearing, Crew, Depot, Numbered, Shelf};
use book::words::write_words;
use card::{Card, diameter_bits, width_bits};
use links::send::send;
use order::record::{RECORD_WORDS, is_above};
use paper::answer::Written;
use register::home::{crew_vector, cut_vector, settle_home};
use register::version::Version;

// The crew's vector with the home entry set to the stamp, its first n entries.
fn made_vector(book: &[u32], n: usize, c: Crew, d: Depot, stamp: u32) -> [u32; 4]
    requires { (length book.now ≡ book_words) × (n ≤ most_depots) × (c.0 < most_crews) × (d.0 < most_depots) }
    ensures { result ≡ cut n (with_entry d.0 stamp (crew_vector book.now c.0)) }
{
    let mut vector = crew_vector(book, c);
    let own = d.index();
    vector[own] = stamp;
    cut_vector(&vector, n)
}

// The ten words of a copy of a version.
fn message_of(v: Version) -> [u32; 10]
    ensures { result ≡ copy_kind ∷ version_words v }
{
    let vector = v.vector;
    let diameter = diameter_bits(v.card);
    let width = width_bits(v.card);
    [
        COPY, v.bearing, v.value, diameter, width, v.origin, vector[0], vector[1], vector[2],
        vector[3],
    ]
}

// The record replaces the stored version of its bearing if it is greater; answers whether it is.
fn keep_record(book: &mut [u32], n: usize, d: Depot, k: Bearing, version: &[u32]) -> bool
    requires { (length book.old ≡ book_words) × (n ≤ most_depots) × (d.0 < most_depots) × (k.0 < bearing_room) × (length version.now ≡ record_words) × (bearing_of version.now ≡ k.0) }
    ensures { (result ≡ above n (rank_of version.now) (rank_of (stored book.old d.0 k.0)))
        × (book.new ≡ kept_in n d.0 version.now book.old) }
{
    let to = stored_at(d, k);
    let end = to + RECORD_WORDS;
    if is_above(version, &book[to..end], n) {
        write_words(book, to, version);
        return true;
    }
    false
}

// A bearing's or a depot's number, as a word.
fn word(number: usize) -> u32
    requires { number < bearing_room }
    ensures { result ≡ number }
{
    number as u32
}

// The copy of the version that a write makes.
fn made_copy(
    book: &[u32],
    n: usize,
    c: Crew,
    k: Bearing,
    d: Depot,
    stamp: u32,
    value: u32,
    card: Card,
) -> [u32; 10]
    requires { (length book.now ≡ book_words) × (n ≤ most_depots) × (c.0 < most_crews) × (d.0 < most_depots) × (k.0 < bearing_room) }
    ensures { result ≡ copy_kind ∷ k.0 ∷ value ∷ word_of card.diameter ∷ word_of card.width ∷ d.0 ∷ cut n (with_entry d.0 stamp (crew_vector book.now c.0)) }
{
    let vector = made_vector(book, n, c, d, stamp);
    message_of(Version {
        bearing: word(k.index()),
        value,
        card,
        origin: word(d.index()),
        vector,
    })
}

// Raise and show with the crew's vector, and the version's vector becomes the crew's.
fn stamp_crew(book: &mut [u32], n: usize, c: Crew, d: Depot, s: Shelf, stamp: u32)
    requires { (length book.old ≡ book_words) × (c.0 < most_crews) × Ready n d.0 s.0 book.old }
    ensures { book.new ≡ set (settled n d.0 s.0 (crew_vector book.old c.0) book.old) (crew_at c.0 + d.0) stamp }
{
    settle_home(book, n, c, d, s);
    book[crew_at(c) + d.index()] = stamp;
}

fn answered(current: bool, stamp: u32) -> Written
    ensures { paper_write (Ok result) ≡ written stamp current }
{
    if current {
        return Written::Current(stamp);
    }
    Written::Superseded(stamp)
}

// The version is made, stored if greater, and sent.
pub fn write_version(
    book: &mut [u32],
    n: usize,
    c: Crew,
    k: Bearing,
    d: Depot,
    s: Shelf,
    stamp: u32,
    value: u32,
    card: Card,
) -> Written
    requires { MayWrite book.old c.0 k.0 (payload_from value card) n d.0 s.0 stamp }
    ensures { (paper_write (Ok result) ≡ written (new_stamp book.old c.0 k.0) (is_current book.old c.0 k.0 (payload_from value card)))
        × (book.new ≡ write_book book.old c.0 k.0 (payload_from value card)) }
{
    let message = made_copy(book, n, c, k, d, stamp, value, card);
    stamp_crew(book, n, c, d, s, stamp);
    let current = keep_record(book, n, d, k, &message[SLOT_RECORD..SLOT_WORDS]);
    send(book, n, d, s, stamp, &message);
    answered(current, stamp)
}
