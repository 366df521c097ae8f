// One line of the desk: it is read, its request performed, the reply printed, and the record of what was done put beside it.
ghost use Rattle.std.specs.Prelude.{◌≡◌, ◌+◌, ◌≤◌, length};
ghost use Rattle.journal.specs.Journal.{journal};
ghost use Rattle.line.specs.Printing.{Wrote};
ghost use Rattle.line.specs.Reading.{reading};
ghost use Rattle.reply.specs.Printed.{answer_room};
ghost use Rattle.events.specs.Answering.{event_says, event_book, event_done, reading_says, reading_book, reading_done, answer_to, book_after_line, record_to, record_room};

use line::answers::answer_number;
use line::reader::read_line;
use recorder::record_at;
use reply::say;
use request::ask::{Event, beside_in, request_of};

pub const LINE_FEED: u8 = b'\n';

const BAD_LINE: u32 = 13;

// The longest record of a request that is done.
pub const RECORD_ROOM: usize = 82;

// Places in two buffers: where the next answer stands, and where the next record.
#[derive(Clone, Copy)]
pub struct Places {
    pub out: usize,
    pub log: usize,
}

// What an event asks with its numbers is performed, the reply printed, and the record put if it was done.
fn run_event(
    book: &mut [u32],
    event: Event,
    numbers: &[u32],
    out: &mut [u8],
    log: &mut [u8],
    at: Places,
) -> Places
    requires { (at.out + answer_room ≤ length out.old) × (at.log + record_room ≤ length log.old) }
    ensures book_after { book.new ≡ event_book book.old event numbers.now }
    ensures wrote { Wrote out.old at.out (event_says book.old event numbers.now) out.new result.out }
    ensures wrote_2 { Wrote log.old at.log (journal (event_done book.old event numbers.now)) log.new result.log }
{
    let request = request_of(event, numbers);
    let log_at = at.log;
    let recorded = record_at(book, request, beside_in(event, numbers), log, log_at);
    let reply = recorded.reply;
    let end = say(reply, out, at.out);
    Places {
        out: end,
        log: log_at + recorded.size,
    }
}

// What a line says is done, answered and recorded.
fn say_line(book: &mut [u32], line: &[u8], out: &mut [u8], log: &mut [u8], at: Places) -> Places
    requires { (at.out + answer_room ≤ length out.old) × (at.log + record_room ≤ length log.old) }
    ensures book_after { book.new ≡ reading_book book.old (reading line.now) }
    ensures wrote { Wrote out.old at.out (reading_says book.old (reading line.now)) out.new result.out }
    ensures wrote_2 { Wrote log.old at.log (journal (reading_done book.old (reading line.now))) log.new result.log }
{
    match read_line(line) {
        None => Places {
            out: answer_number(out, at.out, BAD_LINE),
            log: at.log,
        },
        Some(told) => run_event(book, told.event, &told.numbers[..told.count], out, log, at),
    }
}

// A line is done: its answer with a line feed stands in `out`, its record, if there is one, in `log`, each from its place on. The places after them.
pub fn keep_line(
    book: &mut [u32],
    line: &[u8],
    out: &mut [u8],
    log: &mut [u8],
    at: Places,
) -> Places
    requires { (at.out + answer_room ≤ length out.old) × (at.log + record_room ≤ length log.old) }
    ensures book_after { book.new ≡ book_after_line book.old line.now }
    ensures wrote { Wrote out.old at.out (answer_to book.old line.now) out.new result.out }
    ensures wrote_2 { Wrote log.old at.log (record_to book.old line.now) log.new result.log }
{
    let end = say_line(book, line, out, log, at);
    let last = end.out;
    out[last] = LINE_FEED;
    Places {
        out: last + 1,
        log: end.log,
    }
}

// A line is done, and its answer with a line feed stands in `out` from `at` on. Its record is not kept.
pub fn answer_line(book: &mut [u32], line: &[u8], out: &mut [u8], at: usize) -> usize
    requires { at + answer_room ≤ length out.old }
    ensures book_after { book.new ≡ book_after_line book.old line.now }
    ensures wrote { Wrote out.old at (answer_to book.old line.now) out.new result }
{
    let mut log = [0u8; RECORD_ROOM];
    let end = keep_line(book, line, out, &mut log, Places { out: at, log: 0 });
    end.out
}
