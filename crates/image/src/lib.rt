// Images of a book: eight numbers of header, then its words. docs/JOURNAL.md tells their bytes. `save` and `load` ask nothing of their caller.
#![tactic(auto)]

ghost use Rattle.std.specs.Prelude.{◌≡◌, length};
ghost use Rattle.book.specs.Layout.{book_words};
ghost use Rattle.numbers.specs.Numbers.{words_at};
ghost use Rattle.image.specs.Image.{image_bytes, image_head, same, image_number, number_in, Saving, Loading};

use book::layout::{BEARINGS, BOOK_WORDS, CREWS, DEPOTS, SHELVES};
use book::words::write_words;
use numbers::{put_words, read_words};
use room::NO_ROOM;
use whole::is_fit;

// How many bytes an image has.
pub const IMAGE_BYTES: usize = 65568;

// How many of them are the header's, and its numbers.
const HEAD_BYTES: usize = 32;

const HEAD_WORDS: usize = 8;

// "IMG1": this layout.
const MARK: u32 = 826756425;

// Why an image was not saved, or a book not loaded: a buffer too short or a book of another length, a book that is not fit, bytes that are no image.
#[derive(Clone, Copy)]
pub enum ImageRefusal {
    NoRoom,
    BadBook,
    BadImage,
}

// The number of a refusal.
#[tactic(auto, unfolding(crate::specs::Image::image_number))]
pub fn image_number(refusal: ImageRefusal) -> u32
    ensures { result ≡ image_number refusal }
{
    match refusal {
        ImageRefusal::NoRoom => NO_ROOM,
        ImageRefusal::BadBook => 1,
        ImageRefusal::BadImage => 112,
    }
}

// The number of an answer: 0 is done.
#[tactic(auto, unfolding(crate::specs::Image::number_in))]
pub fn number_in(answer: Result<(), ImageRefusal>) -> u32
    ensures { result ≡ number_in answer }
{
    match answer {
        Ok(()) => 0,
        Err(refusal) => image_number(refusal),
    }
}

// The header that belongs before a book.
fn head_of(book: &[u32]) -> [u32; HEAD_WORDS]
    requires { length book.now ≡ book_words }
    ensures { result ≡ image_head book.now }
{
    [
        MARK,
        book[DEPOTS],
        book[SHELVES],
        book[BEARINGS],
        book[CREWS],
        BOOK_WORDS as u32,
        HEAD_BYTES as u32,
        IMAGE_BYTES as u32,
    ]
}

// Whether the header of an image is the one that belongs before a book.
fn head_is(image: &[u8], book: &[u32]) -> bool
    requires { (length image.now ≡ image_bytes) × (length book.now ≡ book_words) }
    ensures { result ≡ same (words_at image.now 0 8) (image_head book.now) }
{
    let mut head = [0u32; HEAD_WORDS];
    read_words(image, 0, &mut head);
    let right = head_of(book);
    (0..HEAD_WORDS).all(|i| head[i] == right[i])
}

// The image of a book stands in the buffer from its first byte on. Refuses, in this order: BAD BOOK, NO ROOM.
pub fn save(book: &[u32], out: &mut [u8]) -> Result<(), ImageRefusal>
    ensures { Saving book.now out.old (number_in result) out.new }
{
    if !is_fit(book) {
        return Err(ImageRefusal::BadBook);
    }
    if out.len() < IMAGE_BYTES {
        return Err(ImageRefusal::NoRoom);
    }
    let head = head_of(book);
    put_words(out, 0, &head);
    put_words(out, HEAD_BYTES, book);
    Ok(())
}

// Loads an image of the right length by way of `words`, where its book is judged: so a refusal moves no word of the book lent.
fn load_judged(book: &mut [u32], image: &[u8], words: &mut [u32]) -> Result<(), ImageRefusal>
    requires { (length book.old ≡ book_words) × (length image.now ≡ image_bytes) × (length words.old ≡ book_words) }
    ensures { Loading book.old image.now (number_in result) book.new }
{
    read_words(image, HEAD_BYTES, words);
    if !head_is(image, words) {
        return Err(ImageRefusal::BadImage);
    }
    if !is_fit(words) {
        return Err(ImageRefusal::BadBook);
    }
    write_words(book, 0, words);
    Ok(())
}

// The book becomes that of an image, any bytes. Refuses, in this order: NO ROOM, where the book lent has another length; BAD IMAGE; BAD BOOK.
pub fn load(book: &mut [u32], image: &[u8]) -> Result<(), ImageRefusal>
    ensures { Loading book.old image.now (number_in result) book.new }
{
    if book.len() != BOOK_WORDS {
        return Err(ImageRefusal::NoRoom);
    }
    if image.len() != IMAGE_BYTES {
        return Err(ImageRefusal::BadImage);
    }
    let mut words = [0u32; BOOK_WORDS];
    load_judged(book, image, &mut words)
}
