// A journal that a file holds: it is recovered a buffer at a time, and what comes of it is judged.
ghost use Rattle.std.specs.Prelude.{◌≤◌, length, IfOk};
ghost use Rattle.stream.specs.Stream.{Began};

use crate::files::place;
use crate::tell::{tell, tell_failure, tell_file, tell_number};
use events::answer::RECORD_ROOM;
use recovery::{Recovered, recover};
use replayer::{BAD_RECORD, CUT};
use std::io;
use std::io::{IsTerminal, Read, Seek, SeekFrom};

// How many bytes of a journal are read at a time.
const BUFFER_BYTES: usize = 65536;

// How recovery ends behind a whole record.
const WHOLE: u32 = 0;

// After so many bytes more a person who waits is told how far recovery has come.
const TOLD_BYTES: usize = 16777216;

// What has come of a journal so far: how many records were done, how many bytes they have, how many bytes were read behind those, how recovery ended, and why the file could not be read,
// where it could not.
#[derive(Clone, Copy)]
pub struct Restored {
    pub done: usize,
    pub bytes: usize,
    pub rest: usize,
    pub end: u32,
    pub failure: Option<io::Error>,
}

// The records that the bytes begin with are done on the book.
fn recover_on(book: &mut [u32], bytes: &[u8]) -> Recovered
    requires { Began book.old }
    ensures { Began book.new }
{
    recover(book, bytes)
}

// Whether there may be more to read, behind a buffer of which so many bytes count and with this end. Where none count, its bytes are the last: no record is as long as a buffer.
fn goes_on(counted: usize, end: u32) -> bool {
    counted != 0 && (end == WHOLE || end == CUT)
}

fn tell_progress(notes: &(impl Print + IsTerminal), before: usize, so_far: Restored) {
    if before / TOLD_BYTES < so_far.bytes / TOLD_BYTES && notes.is_terminal() {
        tell(notes, b"desk: recovering, ");
        tell_number(notes, so_far.done as u64);
        tell(notes, b" records so far\n");
    }
}

// What has come of a journal, with what is told of so many bytes more. No file is so long that a sum wraps, and no more bytes count than were read.
fn counted_on(so_far: Restored, told: Recovered, count: usize) -> Restored {
    Restored {
        done: so_far.done.wrapping_add(told.done),
        bytes: so_far.bytes.wrapping_add(told.bytes),
        rest: count.wrapping_sub(told.bytes),
        end: told.end,
        failure: None,
    }
}

// A buffer of a file's bytes, from so many of them on.
fn read_behind<F: Read + Seek>(file: &mut F, bytes: usize, buffer: &mut [u8]) -> io::Result<usize>
    ensures { IfOk result (λ n. n ≤ length buffer.new) }
{
    file.seek(SeekFrom::Start(place(bytes)))?;
    file.read(buffer)
}

// A buffer of the journal's bytes, from behind those that count so far on, is read, and the records that it begins with are done on the book. Whether there may be more to read.
fn recover_more<F: Read + Seek>(
    notes: &(impl Print + IsTerminal),
    journal: &mut F,
    book: &mut [u32],
    buffer: &mut [u8],
    so_far: &mut Restored,
) -> io::Result<bool>
    requires { Began book.old }
    ensures { Began book.new }
{
    let before = so_far.bytes;
    let n = read_behind(journal, before, buffer)?;
    let told = recover_on(book, &buffer[..n]);
    *so_far = counted_on(*so_far, told, n);
    tell_progress(notes, before, *so_far);
    Ok(goes_on(told.bytes, told.end))
}

// The records of a journal are done on the book, as long as they come and are done.
fn recover_all<F: Read + Seek>(
    notes: &(impl Print + IsTerminal),
    journal: &mut F,
    book: &mut [u32],
    buffer: &mut [u8],
    so_far: &mut Restored,
) -> io::Result<()>
    requires { Began book.old }
    ensures { Began book.new }
{
    'buffers: for _ in 0..u64::MAX {
        if !recover_more(notes, journal, book, buffer, so_far)? {
            break 'buffers;
        }
    }
    Ok(())
}

// The book becomes that after the records of an open journal, any bytes. What came of it, also where the file could not be read to its end.
pub fn recover_file<F: Read + Seek>(
    notes: &(impl Print + IsTerminal),
    journal: &mut F,
    book: &mut [u32],
) -> Restored
    requires { Began book.old }
    ensures { Began book.new }
{
    let mut buffer = [0u8; BUFFER_BYTES];
    let mut so_far = Restored {
        done: 0,
        bytes: 0,
        rest: 0,
        end: WHOLE,
        failure: None,
    };
    match recover_all(notes, journal, book, &mut buffer, &mut so_far) {
        Ok(()) => so_far,
        Err(error) => Restored {
            rest: 0,
            end: WHOLE,
            failure: Some(error),
            ..so_far
        },
    }
}

// A line on the record that recovery stopped at.
fn tell_stop(notes: &impl Print, path: &[u8], restored: Restored) {
    let end = restored.end;
    tell_file(notes, path);
    tell(notes, b"record ");
    tell_number(notes, (restored.done as u64).wrapping_add(1));
    tell(notes, b", at byte ");
    tell_number(notes, restored.bytes as u64);
    if end == BAD_RECORD {
        tell(notes, b", is of no known kind (");
    } else if end == CUT {
        tell(
            notes,
            b", says that it has more bytes than any record of a call that was done (",
        );
    } else {
        tell(notes, b", is refused (");
    }
    tell_number(notes, end as u64);
    tell(notes, b"): nothing was written\n");
}

// Whether the file ends where it was read to; else a line says so.
fn is_all<F: Seek>(notes: &impl Print, path: &[u8], journal: &mut F, restored: Restored) -> bool {
    let end = place(restored.bytes.wrapping_add(restored.rest));
    if let Ok(at) = journal.seek(SeekFrom::End(0)) {
        if at == end {
            return true;
        }
    }
    tell_file(notes, path);
    tell(notes, b"it was not read to its end: nothing was written\n");
    false
}

// Whether a journal was read to its end and nothing in it is wrong; else a line says what. A torn record is not wrong. A record of a done call has at most 82 bytes: where as
// many are left, no record was torn, and the byte that counts its numbers was damaged.
pub fn is_sound<F: Seek>(
    notes: &impl Print,
    path: &[u8],
    journal: &mut F,
    restored: Restored,
) -> bool {
    if let Some(error) = restored.failure {
        tell_failure(notes, path, &error);
        return false;
    }
    let end = restored.end;
    if end == WHOLE || end == CUT && restored.rest < RECORD_ROOM {
        return is_all(notes, path, journal, restored);
    }
    tell_stop(notes, path, restored);
    false
}

// The book becomes that after the records of an open journal. What came of the journal, if it was read to its end and nothing in it is wrong; else a line says what.
pub fn recover_sound<F: Read + Seek>(
    notes: &(impl Print + IsTerminal),
    path: &[u8],
    journal: &mut F,
    book: &mut [u32],
) -> Option<Restored>
    requires { Began book.old }
    ensures { Began book.new }
{
    let restored = recover_file(notes, journal, book);
    is_sound(notes, path, journal, restored).then_some(restored)
}
