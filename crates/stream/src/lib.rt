// The desk's input as it arrives: any bytes, in pieces cut anywhere. The line so far is kept in a buffer that is lent, its length in the last byte. Answers and
// records stand in two buffers that are lent, each from the first byte on.
#![tactic(auto)]

ghost use Rattle.std.specs.Prelude.{◌≡◌, [], ◌+◌, ◌*◌, ◌≤◌, length};
ghost use Rattle.line.specs.Printing.{Wrote};
ghost use Rattle.reply.specs.Printed.{answer_room};
ghost use Rattle.events.specs.Answering.{answer_to, record_to, record_room};
ghost use Rattle.stream.specs.Stream.{Holder, line_in, line_at, book_at, gives_at, line_through, book_through, gives_through, book_last, gives_last, line_piece, book_piece, says_piece, log_piece};

use events::answer::{LINE_FEED, Places, keep_line};

// How many bytes of a line are kept, one more than a line has at most; after them the buffer has their count.
const KEPT_BYTES: usize = 121;

// One byte: a line feed has the line so far answered, any other byte is kept. The places after the answer and the record.
fn feed_byte(
    book: &mut [u32],
    line: &mut [u8],
    byte: u8,
    out: &mut [u8],
    log: &mut [u8],
    at: Places,
) -> Places
    requires { Holder line.old × (at.out + answer_room ≤ length out.old) × (at.log + record_room ≤ length log.old) }
    ensures book_after { book.new ≡ book_at book.old (line_in line.old) byte }
    ensures holder { Holder line.new × (line_in line.new ≡ line_at (line_in line.old) byte) }
    ensures wrote { Wrote out.old at.out (gives_at answer_to book.old (line_in line.old) byte) out.new result.out }
    ensures wrote_2 { Wrote log.old at.log (gives_at record_to book.old (line_in line.old) byte) log.new result.log }
{
    let count = line[KEPT_BYTES];
    let kept = count as usize;
    if byte == LINE_FEED {
        let next = keep_line(book, &line[..kept], out, log, at);
        line[KEPT_BYTES] = 0;
        return next;
    }
    if kept < KEPT_BYTES {
        line[kept] = byte;
        line[KEPT_BYTES] = count + 1;
    }
    at
}

// The bytes of a piece, each of which has room for an answer and a record. The places after the answers and the records.
fn feed(book: &mut [u32], line: &mut [u8], piece: &[u8], out: &mut [u8], log: &mut [u8]) -> Places
    requires { Holder line.old × (answer_room * length piece.now ≤ length out.old) × (record_room * length piece.now ≤ length log.old) }
    ensures book_after { book.new ≡ book_through book.old (line_in line.old) piece.now }
    ensures holder { Holder line.new × (line_in line.new ≡ line_through (line_in line.old) piece.now) }
    ensures wrote { Wrote out.old 0 (gives_through answer_to book.old (line_in line.old) piece.now) out.new result.out }
    ensures wrote_2 { Wrote log.old 0 (gives_through record_to book.old (line_in line.old) piece.now) log.new result.log }
{
    let mut next = Places { out: 0, log: 0 };
    for i in 0..piece.len() {
        next = feed_byte(book, line, piece[i], out, log, next);
    }
    next
}

// The end of the input: a last line without its line feed counts if not empty. The places after its answer and its record.
fn finish(book: &mut [u32], line: &mut [u8], out: &mut [u8], log: &mut [u8]) -> Places
    requires { Holder line.old × (answer_room ≤ length out.old) × (record_room ≤ length log.old) }
    ensures book_after { book.new ≡ book_last book.old (line_in line.old) }
    ensures holder { Holder line.new × (line_in line.new ≡ []) }
    ensures wrote { Wrote out.old 0 (gives_last answer_to book.old (line_in line.old)) out.new result.out }
    ensures wrote_2 { Wrote log.old 0 (gives_last record_to book.old (line_in line.old)) log.new result.log }
{
    let kept = line[KEPT_BYTES] as usize;
    if kept == 0 {
        return Places { out: 0, log: 0 };
    }
    let next = keep_line(book, &line[..kept], out, log, Places { out: 0, log: 0 });
    line[KEPT_BYTES] = 0;
    next
}

// A piece of the input is done: its answers stand in `out` and the records of what was done in `log`, and the places after them come back. A piece of no bytes is the end
// of the input.
pub fn keep_piece(
    book: &mut [u32],
    line: &mut [u8],
    piece: &[u8],
    out: &mut [u8],
    log: &mut [u8],
) -> Places
    requires { Holder line.old × (answer_room * (length piece.now + 1) ≤ length out.old) × (record_room * (length piece.now + 1) ≤ length log.old) }
    ensures book_after { book.new ≡ book_piece book.old (line_in line.old) piece.now }
    ensures holder { Holder line.new × (line_in line.new ≡ line_piece (line_in line.old) piece.now) }
    ensures wrote { Wrote out.old 0 (says_piece book.old (line_in line.old) piece.now) out.new result.out }
    ensures wrote_2 { Wrote log.old 0 (log_piece book.old (line_in line.old) piece.now) log.new result.log }
    ensures out_in_bounds { (result.out ≤ length out.new) × (result.log ≤ length log.new) }
{
    if piece.len() == 0 {
        return finish(book, line, out, log);
    }
    feed(book, line, piece, out, log)
}
