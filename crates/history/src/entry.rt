// The line of an entry: W or R and ten numbers, each after exactly one space; or R, crew, bearing and a dash, of a bearing that is unwritten.
ghost use Rattle.std.specs.Prelude.{◌≡◌, ◌≤◌, drop};
ghost use Rattle.line.specs.Reading.{numbers_in};
ghost use Rattle.history.specs.Entry.{most_numbers, kinded, read_in, entry_in};

use entries::beside::{ENTRY_WORDS, READ, WRITE};
use line::digits::read_number;

// The kind that is stored of a line that says no entry, and all its words.
pub const BAD: u32 = 2;

pub const BAD_WORDS: [u32; ENTRY_WORDS] = [BAD, 0, 0, 0, 0, 0, 0, 0, 0, 0, 0];

// The most numbers of a line; those of a read of an unwritten bearing.
const MOST_NUMBERS: usize = 10;

const UNWRITTEN_NUMBERS: usize = 2;

// The entry of this kind whose line, from its second byte on, is so many numbers.
fn read_numbers(s: &[u8], kind: u32, count: usize) -> Option<[u32; ENTRY_WORDS]>
    requires { count ≤ most_numbers }
    ensures { result ≡ kinded kind count (numbers_in count (drop 1 s.now)) }
{
    let mut words = [0u32; ENTRY_WORDS];
    words[0] = kind;
    let mut n = 0;
    let mut at = 1;
    while at < s.len() {
        if n == count {
            return None;
        }
        if s[at] != b' ' {
            return None;
        }
        let number = read_number(s, at + 1)?;
        n += 1;
        words[n] = number.value;
        at = number.next;
    }
    if n != count {
        return None;
    }
    Some(words)
}

// The line of a read.
fn read_read(s: &[u8]) -> Option<[u32; ENTRY_WORDS]>
    ensures { result ≡ read_in s.now }
{
    let n = s.len();
    if n < 3 {
        return read_numbers(s, READ, MOST_NUMBERS);
    }
    if s[n - 2] != b' ' {
        return read_numbers(s, READ, MOST_NUMBERS);
    }
    if s[n - 1] != b'-' {
        return read_numbers(s, READ, MOST_NUMBERS);
    }
    read_numbers(&s[..n - 2], READ, UNWRITTEN_NUMBERS)
}

// The eleven words of the entry that a line of any bytes says, if it says one.
pub fn read_line(s: &[u8]) -> Option<[u32; ENTRY_WORDS]>
    ensures { result ≡ entry_in s.now }
{
    if s.len() == 0 {
        return None;
    }
    match s[0] {
        b'W' => read_numbers(s, WRITE, MOST_NUMBERS),
        b'R' => read_read(s),
        _ => None,
    }
}
