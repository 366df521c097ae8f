// The desk that keeps its register: it recovers the journal, cuts off a torn record, and then answers each line after its record is on the disk.
//
// What the system does with files stands outside the promise: `keep_at`, `open_journal` and `is_ready` are to be read. Promised is that the desk begins with a book that a journal goes on
// from, after some requests.
#![tactic(auto)]

ghost use Rattle.stream.specs.Stream.{Began};

use book::layout::BOOK_WORDS;
use restore::files::{PATH_ROOM, create, open_update, place, sync_folder};
use restore::image_file::load_named;
use restore::journal_file::{Restored, recover_sound};
use restore::tell::{tell, tell_failure, tell_file, tell_number, tell_unnamed};
use serve::serve_on;
use std::env::Env;
use std::fs::{Files, OpenFile};
use std::io;
use std::io::{Input, IsTerminal, Seek, SeekFrom};

// A new journal, open for reading and writing. Its name is on the disk before the first record is.
fn make_journal<R: Files>(files: &R, path: &[u8]) -> io::Result<R::File> {
    let made = create(files, path)?;
    drop(made);
    sync_folder(files, path)?;
    open_update(files, path)
}

// The journal at a path, open for reading and writing; it is made where there is none.
fn open_journal<R: Files>(files: &R, path: &[u8]) -> io::Result<R::File> {
    match open_update(files, path) {
        Err(error) if error.kind() == io::ErrorKind::NotFound => make_journal(files, path),
        opened => opened,
    }
}

// A line on what was found in the journal.
fn tell_ready(notes: &impl Print, path: &[u8], restored: Restored) {
    tell_file(notes, path);
    tell_number(notes, restored.done as u64);
    tell(notes, b" records");
    if restored.rest > 0 {
        tell(notes, b"; ");
        tell_number(notes, restored.rest as u64);
        tell(notes, b" bytes of a torn record behind them are cut off");
    }
    tell(notes, b"\n");
}

// The journal ends behind its whole records, is on the disk, and is written on from there. A torn record is cut off.
fn make_ready<F: Seek + OpenFile>(journal: &mut F, restored: Restored) -> io::Result<()> {
    let end = place(restored.bytes);
    if restored.rest > 0 {
        journal.set_len(end)?;
    }
    journal.sync_data()?;
    journal.seek(SeekFrom::Start(end))?;
    Ok(())
}

// Whether that was done; a line says so, or why not.
fn is_ready<F: Seek + OpenFile>(
    notes: &impl Print,
    path: &[u8],
    journal: &mut F,
    restored: Restored,
) -> bool {
    if let Err(error) = make_ready(journal, restored) {
        tell_failure(notes, path, &error);
        return false;
    }
    tell_ready(notes, path, restored);
    true
}

// The desk with an open journal, which goes on from the book.
fn keep_open<R: Files + Input + Print>(
    rt: &R,
    notes: &(impl Print + IsTerminal),
    path: &[u8],
    mut journal: R::File,
    book: &mut [u32],
) -> io::Result<()>
    requires { Began book.old }
{
    let Some(restored) = recover_sound(notes, path, &mut journal, book) else {
        return Ok(());
    };
    if !is_ready(notes, path, &mut journal, restored) {
        return Ok(());
    }
    let mut kept = Some(journal);
    serve_on(rt, notes, &mut kept, book)
}

// The same with the journal at a path. Where it can't be had, a line says why.
fn keep_at<R: Files + Input + Print>(
    rt: &R,
    notes: &(impl Print + IsTerminal),
    path: &[u8],
    book: &mut [u32],
) -> io::Result<()>
    requires { Began book.old }
{
    match open_journal(rt, path) {
        Ok(journal) => keep_open(rt, notes, path, journal, book),
        Err(error) => {
            tell_failure(notes, path, &error);
            Ok(())
        }
    }
}

// The same with the journal that the first argument names.
fn keep_on<R: Files + Env + Input + Print>(
    rt: &R,
    notes: &(impl Print + IsTerminal),
    book: &mut [u32],
) -> io::Result<()>
    requires { Began book.old }
{
    let mut path = [0u8; PATH_ROOM];
    match rt.arg(1, &mut path) {
        Ok(n) => keep_at(rt, notes, &path[..n], book),
        Err(error) => {
            tell_unnamed(notes, b"the name of the journal", error);
            Ok(())
        }
    }
}

// The same; the journal goes on from the image that the second argument names.
fn keep_behind<R: Files + Env + Input + Print>(
    rt: &R,
    notes: &(impl Print + IsTerminal),
    book: &mut [u32],
) -> io::Result<()>
    requires { Began book.old }
{
    if load_named(rt, notes, 2, book) {
        return keep_on(rt, notes, book);
    }
    Ok(())
}

// The desk with the journal that the first argument names, to the end of the input.
pub fn keep<R: Files + Env + Input + Print>(
    rt: &R,
    notes: &(impl Print + IsTerminal),
) -> io::Result<()> {
    let mut book = [0u32; BOOK_WORDS];
    keep_on(rt, notes, &mut book)
}

// The same; the journal goes on from the image that the second argument names.
pub fn keep_from_image<R: Files + Env + Input + Print>(
    rt: &R,
    notes: &(impl Print + IsTerminal),
) -> io::Result<()> {
    let mut book = [0u32; BOOK_WORDS];
    keep_behind(rt, notes, &mut book)
}
