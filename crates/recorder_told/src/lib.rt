// A call made together with its record, for a caller who gets numbers: its number comes back, the record stands in a buffer of bytes, and what is told in one of words. Words too few to
// tell in are refused first of all.
#![tactic(auto)]

ghost use Rattle.std.specs.Prelude.{◌≡◌, ◌∷◌, ◌≤◌, length};
ghost use Rattle.book.specs.Words.{put};
ghost use Rattle.request.specs.Replies.{on_paper, Carries};
ghost use Rattle.journal.specs.Record.{form_of, request_by};
ghost use Rattle.records.specs.Kinds.{own_of};
ghost use Rattle.recorder_told.specs.Told.{fits, answer_words, recorded_words, left, made, left_by};

use book::words::write_words;
use journal::record::Kind;
use paper::answer::Refusal;
use recorder::recorded;
use records::asking::{beside_by, request_by};
use records::kinds::{kind_of, shape_of};
use request::reply::Reply;
use room::{NO_ROOM, fill};
use telling::{reading_words, written_words};

// The words of an answer, and with the record's length before them.
const ANSWER_WORDS: usize = 64;

const RECORDED_WORDS: usize = 65;

// The number of no kind, and of numbers that are not as many as the kind has.
const BAD_RECORD: u32 = 110;

// Whether so many numbers are those of a kind.
fn has_numbers(kind: Kind, count: usize) -> bool
    ensures { result ≡ fits (form_of kind) count }
{
    let shape = shape_of(kind);
    let own = shape.own;
    if shape.counted {
        return own <= count;
    }
    count == own
}

// The answer of a reply in words, 0 behind what it tells.
fn answer_words(reply: Result<Reply, Refusal>) -> [u32; ANSWER_WORDS]
    requires { Carries (on_paper reply) reply }
    ensures { result ≡ answer_words (on_paper reply) }
{
    let mut words = [0u32; ANSWER_WORDS];
    let Ok(told) = reply else {
        return words;
    };
    match told {
        Reply::Done => words,
        Reply::Read(reading) => {
            fill(&mut words, &reading_words(reading));
            words
        }
        Reply::Written(written) => {
            fill(&mut words, &written_words(written));
            words
        }
        Reply::Listed(page) => {
            let listed = page.words;
            fill(&mut words, &listed);
            words
        }
    }
}

// How many bytes a record has and the answer stand at the start of `out`.
fn tell(out: &mut [u32], size: usize, reply: Result<Reply, Refusal>)
    requires { (recorded_words ≤ length out.old) × (size ≤ 82) × Carries (on_paper reply) reply }
    ensures { out.new ≡ put out.old 0 (size ∷ answer_words (on_paper reply)) }
{
    let words = answer_words(reply);
    out[0] = size as u32;
    write_words(out, 1, &words);
}

// The call of a kind with its numbers is made together with its record, and told.
fn tell_call(
    book: &mut [u32],
    kind: Kind,
    numbers: &[u32],
    bytes: &mut [u8],
    out: &mut [u32],
) -> u32
    requires { (own_of kind ≤ length numbers.now) × (recorded_words ≤ length out.old) }
    ensures { left result book.new bytes.new out.new
        ≡ made (request_by kind numbers.now) book.old bytes.old out.old }
{
    let request = request_by(kind, numbers);
    let told = recorded(book, request, beside_by(kind, numbers), bytes);
    let number = told.number;
    if number != 0 {
        return number;
    }
    tell(out, told.size, told.reply);
    0
}

// The call of the kind that a number names, with its numbers, is made together with its record. Done, the record stands at the start of `bytes`, and how many bytes it has and the answer at
// the start of `out`. Refuses, in this order: NO ROOM to tell in; BAD RECORD; NO ROOM for the record; as the call does.
pub fn tell_recorded(
    book: &mut [u32],
    kind: u32,
    numbers: &[u32],
    bytes: &mut [u8],
    out: &mut [u32],
) -> u32
    ensures { left result book.new bytes.new out.new
        ≡ left_by kind numbers.now book.old bytes.old out.old }
{
    if out.len() < RECORDED_WORDS {
        return NO_ROOM;
    }
    let Some(known) = kind_of(kind) else {
        return BAD_RECORD;
    };
    if !has_numbers(known, numbers.len()) {
        return BAD_RECORD;
    }
    tell_call(book, known, numbers, bytes, out)
}
