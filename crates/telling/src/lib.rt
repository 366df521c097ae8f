// What a call tells in numbers: its number comes back, and what a read, a write or the grams tell stands in a buffer. A buffer that is too short is refused first of
// all, before the book is looked at.
#![tactic(auto)]

ghost use Rattle.std.specs.Prelude.{◌≡◌, ◌/◌, ◌%◌, Ok, IfOk, MatchOption};
ghost use Rattle.paper.specs.Calls.{read, write, number_in, read_unwritten, read_value};
ghost use Rattle.paper.specs.Answers.{paper_read, paper_write, Holds, told_words};
ghost use Rattle.upkeep.specs.Requests.{call, number_at, reply_to, book_after};
ghost use Rattle.card.specs.Card.{grams_answer, grams_number};
ghost use Rattle.room.specs.Room.{no_room, in_room, filled};
ghost use Rattle.telling.specs.Told.{read_words, write_words, grams_words, words_of, grams_out};

use card::grams;
use paper::answer::{Payload, Reading, Refusal, Written};
use paper::number::number_of;
use read::read;
use room::{NO_ROOM, fill};
use write::write;

// The words that the answer of a read, of a write and of the grams takes.
const READ_WORDS: usize = 8;

const WRITE_WORDS: usize = 2;

const GRAMS_WORDS: usize = 2;

// The words of what a read tells.
pub fn reading_words(reading: Reading) -> [u32; READ_WORDS]
    ensures told { MatchOption reading.payload (result ≡ told_words (read_unwritten reading.vector)) (λ p. result ≡ told_words (read_value p reading.vector)) }
    ensures words { Holds (paper_read (Ok reading)) reading.vector reading.depots → result ≡ words_of (paper_read (Ok reading)) }
{
    let v = reading.vector;
    match reading.payload {
        Some(p) => [1, p.value, p.diameter, p.width, v[0], v[1], v[2], v[3]],
        None => [0, 0, 0, 0, v[0], v[1], v[2], v[3]],
    }
}

// The same of a write.
pub fn written_words(written: Written) -> [u32; WRITE_WORDS]
    ensures { result ≡ words_of (paper_write (Ok written)) }
{
    match written {
        Written::Current(stamp) => [stamp, 1],
        Written::Superseded(stamp) => [stamp, 0],
    }
}

// What the answer of a read tells stands in `out`, and its number comes back.
fn tell_found(out: &mut [u32], answer: Result<Reading, Refusal>) -> u32
    requires { IfOk answer (λ a. Holds (paper_read answer) a.vector a.depots) }
    ensures value { result ≡ number_in (paper_read answer) }
    ensures out_after { out.new ≡ filled (words_of (paper_read answer)) out.old }
{
    match answer {
        Ok(reading) => {
            fill(out, &reading_words(reading));
            0
        }
        Err(r) => number_of(r),
    }
}

// The same of a write.
fn tell_written(out: &mut [u32], answer: Result<Written, Refusal>) -> u32
    ensures value { result ≡ number_in (paper_write answer) }
    ensures out_after { out.new ≡ filled (words_of (paper_write answer)) out.old }
{
    match answer {
        Ok(written) => {
            fill(out, &written_words(written));
            0
        }
        Err(r) => number_of(r),
    }
}

// A read is done; what it tells stands in `out`, and its number comes back. Without room for it the read is refused.
pub fn tell_read(book: &mut [u32], crew: u32, bearing: u32, out: &mut [u32]) -> u32
    ensures value { result ≡ in_room read_words out.old (number_at book.old (call (read crew bearing))) no_room }
    ensures book_after { book.new ≡ in_room read_words out.old (book_after book.old (call (read crew bearing))) book.old }
    ensures out_after { out.new
        ≡ in_room read_words out.old (filled (words_of (reply_to book.old (call (read crew bearing)))) out.old) out.old }
{
    if out.len() < READ_WORDS {
        return NO_ROOM;
    }
    tell_found(out, read(book, crew, bearing))
}

// The same of a write.
pub fn tell_write(
    book: &mut [u32],
    crew: u32,
    bearing: u32,
    payload: Payload,
    out: &mut [u32],
) -> u32
    ensures value { result ≡ in_room write_words out.old (number_at book.old (call (write crew bearing payload))) no_room }
    ensures book_after { book.new ≡ in_room write_words out.old (book_after book.old (call (write crew bearing payload))) book.old }
    ensures out_after { out.new
        ≡ in_room write_words out.old (filled (words_of (reply_to book.old (call (write crew bearing payload)))) out.old) out.old }
{
    if out.len() < WRITE_WORDS {
        return NO_ROOM;
    }
    tell_written(out, write(book, crew, bearing, payload))
}

// The low and the high word of 64 bits.
fn low_word(bits: u64) -> u32
    ensures { result ≡ bits % 4294967296 }
{
    (bits % 4294967296) as u32
}

fn high_word(bits: u64) -> u32
    ensures { result ≡ bits / 4294967296 }
{
    (bits / 4294967296) as u32
}

// The grams of the card of two words; their bits stand in `out`, the low word first.
pub fn tell_grams(diameter: u32, width: u32, out: &mut [u32]) -> u32
    ensures value { result ≡ in_room grams_words out.old (grams_number (grams_answer diameter width)) no_room }
    ensures out_after { out.new ≡ in_room grams_words out.old (filled (grams_out (grams_answer diameter width)) out.old) out.old }
{
    if out.len() < GRAMS_WORDS {
        return NO_ROOM;
    }
    let Some(bits) = grams(diameter, width) else {
        return number_of(Refusal::BadCard);
    };
    fill(out, &[low_word(bits), high_word(bits)]);
    0
}
