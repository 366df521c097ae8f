// Bytes: words of 32 bits as four of them, halves of 16 bits as two, the lowest first.
#![tactic(auto)]

ghost use Rattle.std.specs.Prelude.{◌≡◌, ◌+◌, ◌*◌, ◌%◌, ◌≤◌, length};
ghost use Rattle.book.specs.Words.{put};
ghost use Rattle.wire.specs.Wire.{half_bytes, half_at, word_bytes, word_of, word_at};

// A byte as a number to count with.
pub fn wide_byte(b: u8) -> usize
    ensures { result ≡ b }
{
    b as usize
}

// The half that the two bytes from `at` on are.
pub fn half_at(f: &[u8], at: usize) -> usize
    requires { at + 2 ≤ length f.now }
    ensures { result ≡ half_at f.now at }
{
    u16::from_le_bytes([f[at], f[at + 1]]) as usize
}

// The word that the four bytes from `at` on are.
pub fn word_at(f: &[u8], at: usize) -> u32
    requires { at + 4 ≤ length f.now }
    ensures { result ≡ word_at f.now at }
{
    u32::from_le_bytes([f[at], f[at + 1], f[at + 2], f[at + 3]])
}

// The lowest byte of a word.
pub fn low(w: u32) -> u8
    ensures { result ≡ w % 256 }
{
    w.to_le_bytes()[0]
}

// The two bytes of a half stand from `at` on.
pub fn put_half(out: &mut [u8], at: usize, w: usize)
    requires { at + 2 ≤ length out.old }
    ensures { out.new ≡ put out.old at (half_bytes w) }
{
    out[at..at + 2].copy_from_slice(&w.to_le_bytes()[..2]);
}

// The four bytes of a word stand from `at` on.
pub fn put_word(out: &mut [u8], at: usize, w: u32)
    requires { at + 4 ≤ length out.old }
    ensures { out.new ≡ put out.old at (word_bytes w) }
{
    out[at..at + 4].copy_from_slice(&w.to_le_bytes());
}
