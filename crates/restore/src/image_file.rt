// The book of an image that a file holds.
ghost use Rattle.stream.specs.Stream.{Began};

use crate::files::{PATH_ROOM, open_read};
use crate::tell::{tell, tell_failure, tell_file, tell_unnamed};
use image::{IMAGE_BYTES, ImageRefusal, load};
use std::env::Env;
use std::fs::Files;
use std::io::Read;

// One byte more than an image has: a file that is longer is seen to be.
const ROOM: usize = IMAGE_BYTES + 1;

// The book becomes that of an image, any bytes; where they are none, it is as it was.
fn load_on(book: &mut [u32], bytes: &[u8]) -> Result<(), ImageRefusal>
    requires { Began book.old }
    ensures { Began book.new }
{
    load(book, bytes)
}

// Whether an image was loaded; else a line says why not.
fn is_loaded(notes: &impl Print, path: &[u8], answer: Result<(), ImageRefusal>) -> bool {
    let Err(refusal) = answer else {
        return true;
    };
    tell_file(notes, path);
    match refusal {
        ImageRefusal::BadBook => tell(
            notes,
            b"it has the form of an image, and its book is not fit (1)\n",
        ),
        _ => tell(notes, b"it is no image of a book (112)\n"),
    }
    false
}

// The book becomes that of the image that an open file holds. Where it can't be, a line says why, and the book is as it was.
fn load_open<F: Read>(notes: &impl Print, path: &[u8], file: &mut F, book: &mut [u32]) -> bool
    requires { Began book.old }
    ensures { Began book.new }
{
    let mut bytes = [0u8; ROOM];
    match file.read(&mut bytes) {
        Ok(n) => {
            let answer = load_on(book, &bytes[..n]);
            is_loaded(notes, path, answer)
        }
        Err(error) => {
            tell_failure(notes, path, &error);
            false
        }
    }
}

// The same of the file at a path.
fn load_file<R: Files>(rt: &R, notes: &impl Print, path: &[u8], book: &mut [u32]) -> bool
    requires { Began book.old }
    ensures { Began book.new }
{
    match open_read(rt, path) {
        Ok(mut file) => load_open(notes, path, &mut file, book),
        Err(error) => {
            tell_failure(notes, path, &error);
            false
        }
    }
}

// The same of the file that the argument i names.
pub fn load_named<R: Files + Env>(rt: &R, notes: &impl Print, i: usize, book: &mut [u32]) -> bool
    requires { Began book.old }
    ensures { Began book.new }
{
    let mut path = [0u8; PATH_ROOM];
    match rt.arg(i, &mut path) {
        Ok(n) => load_file(rt, notes, &path[..n], book),
        Err(error) => {
            tell_unnamed(notes, b"the name of the image", error);
            false
        }
    }
}
