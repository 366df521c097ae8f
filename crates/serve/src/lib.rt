// The desk's loop: what arrives on standard input is done, the records of it are put in the journal, and then it is answered on standard output, piece by piece, until no
// more comes. The loop keeps nothing: the book, and the line so far with its length, stand in the buffers that it lends. No contract can say what the system's calls do, so
// that the pieces are those of the input, in order, that the records stand in the journal before the answers reach the output, and both in order, stands outside the promise:
// `turn` and `keep_records` are to be read.
#![tactic(auto)]

ghost use Rattle.std.specs.Prelude.{◌≡◌, ◌+◌, ◌*◌, ◌≤◌, length, take, IfOk, OnErr};
ghost use Rattle.reply.specs.Printed.{answer_room};
ghost use Rattle.events.specs.Answering.{record_room};
ghost use Rattle.stream.specs.Stream.{Holder, line_in, line_piece, book_piece, Began, Served, Left};

use book::layout::BOOK_WORDS;
use events::answer::RECORD_ROOM;
use reply::ANSWER_ROOM;
use std::fs::{Files, OpenFile};
use std::io;
use std::io::{Input, Read, Seek, Write};
use stream::keep_piece;

// The bytes that are kept of a line, and their count.
const LINE_ROOM: usize = 122;

// How many bytes a piece of the input has at most.
const PIECE_BYTES: usize = 4096;

// Room for an answer to each byte of a piece of the input, and for one at its end; and the same for records.
const OUT_ROOM: usize = ANSWER_ROOM * 4097;

const LOG_ROOM: usize = RECORD_ROOM * 4097;

// Writes the answers, and keeps none back. Where they cannot be written, a line says so; `notes` is what a person reads, standard error.
fn write_answers<O: Write>(notes: &impl Print, to: &mut O, said: &[u8]) -> bool {
    if write_through(to, said).is_err() {
        let _ = notes.print("desk: an answer could not be written\n");
        return false;
    }
    true
}

fn write_through<O: Write>(to: &mut O, bytes: &[u8]) -> io::Result<()> {
    to.write_all(bytes)?;
    to.flush()
}

// Writes the records behind those that the journal has, and waits until they are on the disk.
fn write_records<F: Write + OpenFile>(journal: &mut F, records: &[u8]) -> io::Result<()> {
    journal.write_all(records)?;
    journal.sync_data()
}

// The journal ends where it ended before, if that is known.
fn cut_back<F: OpenFile>(journal: &F, end: io::Result<u64>) -> io::Result<()> {
    journal.set_len(end?)
}

// The records of a piece are on the disk. If that can't be, the journal is cut back to where it ended before, and a line says so. A desk with no journal keeps none.
fn keep_records<F: Write + Seek + OpenFile>(
    notes: &impl Print,
    journal: &mut Option<F>,
    records: &[u8],
) -> bool {
    let Some(file) = journal else {
        return true;
    };
    if records.is_empty() {
        return true;
    }
    let end = file.stream_position();
    let Err(refused) = write_records(file, records) else {
        return true;
    };
    let _ = println!(notes; "desk: the journal cannot be written: {refused}");
    if let Err(uncut) = cut_back(file, end) {
        let _ = println!(notes; "desk: nor can it be cut back to the records before: {uncut}");
    }
    let _ = notes.print(
        "desk: so what came since the last answer is not done; all that was answered is kept\n",
    );
    false
}

// How many bytes were read, and whether their answers were given.
#[derive(Clone, Copy)]
struct Told {
    count: usize,
    given: bool,
}

// What has arrived is read and done; its records are kept; and only then it is answered. No bytes are the end of the input. Where it cannot be read, nothing is done.
fn turn<I: Read, O: Write, F: Write + Seek + OpenFile>(
    notes: &impl Print,
    from: &mut I,
    to: &mut O,
    journal: &mut Option<F>,
    book: &mut [u32],
    line: &mut [u8],
    input: &mut [u8],
    out: &mut [u8],
    log: &mut [u8],
) -> io::Result<Told>
    requires { Holder line.old × (answer_room * (length input.old + 1) ≤ length out.old) × (record_room * (length input.old + 1) ≤ length log.old) }
    ensures book_after { IfOk result (λ told. book.new ≡ book_piece book.old (line_in line.old) (take told.count input.new)) }
    ensures holder { IfOk result (λ told. Holder line.new × (line_in line.new ≡ line_piece (line_in line.old) (take told.count input.new))) }
    ensures book_stays { OnErr result (book.new ≡ book.old) }
    ensures line_stays { OnErr result (line.new ≡ line.old) }
    ensures out_stays { OnErr result (out.new ≡ out.old) }
    ensures log_stays { OnErr result (log.new ≡ log.old) }
{
    let n = from.read(input)?;
    let at = keep_piece(book, line, &input[..n], out, log);
    let given = keep_records(notes, journal, &log[..at.log])
        && write_answers(notes, to, &out[..at.out]);
    Ok(Told {
        count: n,
        given: given,
    })
}

// All that arrives, with no line begun. Where it cannot be read to its end, all that was read is done.
fn answer_all<I: Read, O: Write, F: Write + Seek + OpenFile>(
    notes: &impl Print,
    from: &mut I,
    to: &mut O,
    journal: &mut Option<F>,
    book: &mut [u32],
    line: &mut [u8],
    input: &mut [u8],
    out: &mut [u8],
    log: &mut [u8],
) -> io::Result<()>
    requires { Served book.old book.old line.old × (answer_room * (length input.old + 1) ≤ length out.old) × (record_room * (length input.old + 1) ≤ length log.old) }
    ensures { Served book.old book.new line.new }
{
    'pieces: for _ in 0..u64::MAX {
        let told = turn(notes, from, to, journal, book, line, input, out, log)?;
        if !told.given || told.count == 0 {
            break 'pieces;
        }
    }
    Ok(())
}

// The desk on a book, to the end of the input. A journal, if there is one, is open for writing, and stands at its end.
pub fn serve_on<R: Input + Print, F: Write + Seek + OpenFile>(
    rt: &R,
    notes: &impl Print,
    journal: &mut Option<F>,
    book: &mut [u32],
) -> io::Result<()>
    requires { Began book.old }
    ensures { Left book.old book.new }
{
    let mut from = rt.reader();
    let mut to = io::writer(rt);
    let mut line = [0u8; LINE_ROOM];
    let mut input = [0u8; PIECE_BYTES];
    let mut out = [0u8; OUT_ROOM];
    let mut log = [0u8; LOG_ROOM];
    answer_all(
        notes, &mut from, &mut to, journal, book, &mut line, &mut input, &mut out, &mut log,
    )
}

// The desk, from an empty book to the end of the input, without a journal.
pub fn serve<R: Input + Print + Files>(rt: &R, notes: &impl Print) -> io::Result<()> {
    let mut book = [0u32; BOOK_WORDS];
    let mut journal: Option<R::File> = None;
    serve_on(rt, notes, &mut journal, &mut book)
}
