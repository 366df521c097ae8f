// Lists of numbers as bytes, four of them each, the lowest first.
#![tactic(auto)]

ghost use Rattle.std.specs.Prelude.{◌≡◌, ◌+◌, ◌*◌, ◌≤◌, length};
ghost use Rattle.book.specs.Words.{put};
ghost use Rattle.numbers.specs.Numbers.{bytes_of, words_at};

use wire::{put_word, word_at};

// The bytes of the words stand from `at` on.
pub fn put_words(out: &mut [u8], at: usize, words: &[u32])
    requires { at + 4 * length words.now ≤ length out.old }
    ensures { out.new ≡ put out.old at (bytes_of words.now) }
{
    for i in 0..words.len() {
        put_word(out, at + 4 * i, words[i]);
    }
}

// The words are those that the bytes from `at` on are.
pub fn read_words(bytes: &[u8], at: usize, words: &mut [u32])
    requires { at + 4 * length words.old ≤ length bytes.now }
    ensures { words.new ≡ words_at bytes.now at (length words.old) }
{
    for i in 0..words.len() {
        words[i] = word_at(bytes, at + 4 * i);
    }
}
