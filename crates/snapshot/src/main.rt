// An image of a journal's register, saved to a new file: snapshot JOURNAL NEW_IMAGE [IMAGE]. Where the journal goes on from an image, that is the third. The journal is only read. The image gets its
// name when it is all there and on the disk; until then it lies beside, under that name with a `~` behind it.
#![tactic(auto)]

ghost use Rattle.std.specs.Prelude.{◌≡◌, ◌≤◌, length, take};
ghost use Rattle.stream.specs.Stream.{Began};

use book::layout::BOOK_WORDS;
use image::{IMAGE_BYTES, save};
use restore::arguments::arg_count;
use restore::files::{PATH_ROOM, create, open_read, remove, rename, sync_folder};
use restore::image_file::load_named;
use restore::journal_file::recover_sound;
use restore::tell::{tell, tell_failure, tell_file, tell_unnamed};
use std::env::Env;
use std::fs::{Files, OpenFile};
use std::io;
use std::io::{IsTerminal, Write};

// As many arguments, the program's own name among them, as there are without an image to go on from, and with one.
const PLAIN: usize = 3;

const FROM_IMAGE: usize = 4;

// Whether nothing has this name yet; else a line says so.
fn is_free(files: &impl Files, notes: &impl Print, path: &[u8]) -> bool {
    match open_read(files, path) {
        Ok(there) => {
            drop(there);
            tell_file(notes, path);
            tell(notes, b"it is there already: nothing was written\n");
            false
        }
        Err(error) if error.kind() == io::ErrorKind::NotFound => true,
        Err(error) => {
            tell_failure(notes, path, &error);
            false
        }
    }
}

// The name beside the one that the n first bytes are: a byte more. Where there is no room for it, it is none, of no bytes.
fn name_beside(name: &mut [u8], n: usize) -> usize
    ensures { (result ≤ length name.new) × (result ≡ length (take result name.new)) }
{
    if n < name.len() {
        name[n] = b'~';
        return n + 1;
    }
    0
}

// The bytes are in a file, and on the disk; then it is closed.
fn keep_in<F: Write + OpenFile + Drop>(mut file: F, bytes: &[u8]) -> io::Result<()> {
    file.write_all(bytes)?;
    file.sync_data()
}

// Whether the bytes are in a new file at a path, and on the disk. Where they can't be, a line says why, and there is no such file.
fn is_made(files: &impl Files, notes: &impl Print, path: &[u8], bytes: &[u8]) -> bool {
    match create(files, path) {
        Ok(file) => {
            if let Err(error) = keep_in(file, bytes) {
                tell_failure(notes, path, &error);
                let _ = remove(files, path);
                return false;
            }
            true
        }
        Err(error) => {
            tell_failure(notes, path, &error);
            false
        }
    }
}

// The bytes are in a new file at a path, all of them or none, and so they are after the power goes.
fn save_at(files: &impl Files, notes: &impl Print, path: &[u8], beside: &[u8], bytes: &[u8]) {
    if !is_free(files, notes, path) {
        return;
    }
    if !is_made(files, notes, beside, bytes) {
        return;
    }
    if let Err(error) = rename(files, beside, path) {
        tell_failure(notes, path, &error);
        let _ = remove(files, beside);
        return;
    }
    if let Err(error) = sync_folder(files, path) {
        tell_failure(notes, path, &error);
    }
}

// The same at the path that the second argument names.
fn save_named<R: Files + Env>(rt: &R, notes: &impl Print, bytes: &[u8]) {
    let mut path = [0u8; PATH_ROOM];
    match rt.arg(2, &mut path) {
        Ok(n) => {
            let mut beside = path;
            let k = name_beside(&mut beside, n);
            save_at(rt, notes, &path[..n], &beside[..k], bytes);
        }
        Err(error) => tell_unnamed(notes, b"the name of the new image", error),
    }
}

// The image of a book is saved there, if something was set up.
fn save_book<R: Files + Env>(rt: &R, notes: &impl Print, book: &[u32]) {
    let mut bytes = [0u8; IMAGE_BYTES];
    match save(book, &mut bytes) {
        Ok(()) => save_named(rt, notes, &bytes),
        Err(_) => tell(
            notes,
            b"desk: no register is set up (1): nothing was written\n",
        ),
    }
}

// Whether the records of the journal at a path were done on the book, without a fault; else a line says why not. The journal stays as it is.
fn is_recovered(
    files: &impl Files,
    notes: &(impl Print + IsTerminal),
    path: &[u8],
    book: &mut [u32],
) -> bool
    requires { Began book.old }
{
    match open_read(files, path) {
        Ok(mut journal) => recover_sound(notes, path, &mut journal, book).is_some(),
        Err(error) => {
            tell_failure(notes, path, &error);
            false
        }
    }
}

// The journal that the first argument names goes on from the book, and the image of what comes of it is saved.
fn save_on<R: Files + Env>(rt: &R, notes: &(impl Print + IsTerminal), book: &mut [u32])
    requires { Began book.old }
{
    let mut path = [0u8; PATH_ROOM];
    match rt.arg(1, &mut path) {
        Ok(n) => {
            if is_recovered(rt, notes, &path[..n], book) {
                save_book(rt, notes, book);
            }
        }
        Err(error) => tell_unnamed(notes, b"the name of the journal", error),
    }
}

// The same; the journal goes on from the image that the third argument names.
fn save_behind<R: Files + Env>(rt: &R, notes: &(impl Print + IsTerminal), book: &mut [u32])
    requires { Began book.old }
{
    if load_named(rt, notes, 3, book) {
        save_on(rt, notes, book);
    }
}

fn save_journal<R: Files + Env>(rt: &R, notes: &(impl Print + IsTerminal)) {
    let mut book = [0u32; BOOK_WORDS];
    save_on(rt, notes, &mut book);
}

fn save_behind_image<R: Files + Env>(rt: &R, notes: &(impl Print + IsTerminal)) {
    let mut book = [0u32; BOOK_WORDS];
    save_behind(rt, notes, &mut book);
}

fn main(rt: HostRuntime) {
    let notes = rt.stderr();
    match arg_count(&rt, FROM_IMAGE + 1) {
        PLAIN => save_journal(&rt, &notes),
        FROM_IMAGE => save_behind_image(&rt, &notes),
        _ => tell(&notes, b"usage: snapshot JOURNAL NEW_IMAGE [IMAGE]\n"),
    }
}
