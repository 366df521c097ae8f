// The next record of a journal: whether it is all there, and its call, which is made. docs/JOURNAL.md tells what comes of it.
#![tactic(auto)]

ghost use Rattle.std.specs.Prelude.{◌≡◌, ◌≤◌, ◌<◌, length, get_or};
ghost use Rattle.upkeep.specs.Requests.{number_at, book_after};
ghost use Rattle.journal.specs.Record.{head_size, numbers_in, request_by};
ghost use Rattle.records.specs.Kinds.{own_of};
ghost use Rattle.replayer.specs.Turn.{most_numbers, Turn};

use calls::perform::perform;
use journal::record::Kind;
use numbers::read_words;
use records::asking::{beside_by, request_by};
use records::kinds::{kind_of, shape_of};
use request::reply::number_in;
use wire::wide_byte;

// How recovery ends at a byte that is no kind, and inside a record.
pub const BAD_RECORD: u32 = 110;

pub const CUT: u32 = 111;

// The most numbers that a record has: a setup's four counts, and as many homes as a byte counts.
pub const MOST_NUMBERS: usize = 259;

// What the next record came to: how recovery ends there, 0 if it goes on; and how many bytes the record has.
#[derive(Clone, Copy)]
pub struct Next {
    pub end: u32,
    pub size: usize,
}

// How many bytes come before a record's numbers, and how many numbers it has.
#[derive(Clone, Copy)]
struct Extent {
    head: usize,
    numbers: usize,
}

// The byte that counts, 0 where it is not there.
fn count_in(bytes: &[u8]) -> usize
    ensures { (result ≡ get_or bytes.now 1 0) × (result ≤ 255) }
{
    bytes.get(1).map_or(0, |&count| wide_byte(count))
}

// The extent of a record of a kind, as far as its bytes say.
fn extent_of(kind: Kind, bytes: &[u8]) -> Extent
    ensures { (result.head ≡ head_size kind) × (result.numbers ≡ numbers_in kind bytes.now) × (result.numbers ≤ most_numbers) }
{
    let shape = shape_of(kind);
    let own = shape.own;
    if shape.counted {
        return Extent {
            head: 2,
            numbers: own + count_in(bytes),
        };
    }
    Extent {
        head: 1,
        numbers: own,
    }
}

// The call of a kind with its numbers is made; its number.
fn replayed(book: &mut [u32], kind: Kind, numbers: &[u32]) -> u32
    requires { own_of kind ≤ length numbers.now }
    ensures value { result ≡ number_at book.old (request_by kind numbers.now) }
    ensures book_after { book.new ≡ book_after book.old (request_by kind numbers.now) }
{
    let request = request_by(kind, numbers);
    let reply = perform(book, request, beside_by(kind, numbers));
    number_in(reply)
}

// The record that the bytes begin with is replayed, if it is all there. `numbers` is room for its numbers.
pub fn next_record(book: &mut [u32], bytes: &[u8], numbers: &mut [u32]) -> Next
    requires { (0 < length bytes.now) × (most_numbers ≤ length numbers.old) }
    ensures { Turn book.old bytes.now result book.new }
{
    let Some(kind) = kind_of(u32::from(bytes[0])) else {
        return Next {
            end: BAD_RECORD,
            size: 0,
        };
    };
    let extent = extent_of(kind, bytes);
    let head = extent.head;
    let n = extent.numbers;
    let size = head + 4 * n;
    if bytes.len() < size {
        return Next { end: CUT, size: 0 };
    }
    read_words(bytes, head, &mut numbers[..n]);
    let end = replayed(book, kind, &numbers[..n]);
    Next {
        end: end,
        size: size,
    }
}
