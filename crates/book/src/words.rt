// Runs of words: written, copied within the book, and cleared.
ghost use Rattle.std.specs.Prelude.{◌≡◌, ◌+◌, ◌≤◌, length, replicate};
ghost use Rattle.book.specs.Words.{part, put, Forward};

// The words stand from `at` on.
pub fn write_words(book: &mut [u32], at: usize, words: &[u32])
    requires { at + length words.now ≤ length book.old }
    ensures { book.new ≡ put book.old at words.now }
{
    book[at..at + words.len()].copy_from_slice(words);
}

// The n words from `from` on stand from `to` on, too; no word may be written before it is read.
pub fn copy_words(book: &mut [u32], from: usize, to: usize, n: usize)
    requires { (from + n ≤ length book.old) × (to + n ≤ length book.old) × Forward from to n }
    ensures { book.new ≡ put book.old to (part book.old from n) }
{
    book.copy_within(from..from + n, to);
}

// The n words from `at` on are 0.
pub fn clear_words(book: &mut [u32], at: usize, n: usize)
    requires { at + n ≤ length book.old }
    ensures { book.new ≡ put book.old at (replicate n 0) }
{
    book[at..at + n].fill(0);
}
