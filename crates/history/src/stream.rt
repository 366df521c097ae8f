// The lines of a history as they arrive: any bytes, in pieces cut anywhere. The line so far and the words of the lines before it are lent.
ghost use Rattle.std.specs.Prelude.{◌≡◌};
ghost use Rattle.history.specs.Stream.{Fits, state, ended, fed, through, finished};

use crate::entry::{BAD_WORDS, read_line};
use entries::beside::{ENTRY_WORDS, MOST_ENTRIES};

const LINE_FEED: u8 = b'\n';

// Room for the words of 256 lines.
pub const HISTORY_WORDS: usize = 2816;

// How many bytes of a line are kept: one more than a line that says an entry has at most.
pub const KEPT_BYTES: usize = 112;

// How many bytes of the line so far are kept, and how many lines have ended: 257 stands for more than 256.
#[derive(Clone, Copy)]
pub struct Place {
    pub kept: usize,
    pub lines: usize,
}

// The line so far has ended: the words of its entry are stored after those of the lines before it.
fn end_line(words: &mut [u32], line: &[u8], kept: usize, lines: usize) -> Place
    requires { Fits words.old line.now kept lines }
    ensures fits { Fits words.new line.now 0 result.lines }
    ensures kept_value { (result.kept ≡ 0) × (state words.new line.now 0 result.lines ≡ ended (state words.old line.now kept lines)) }
{
    if MOST_ENTRIES <= lines {
        return Place {
            kept: 0,
            lines: MOST_ENTRIES + 1,
        };
    }
    let entry = read_line(&line[..kept]).unwrap_or(BAD_WORDS);
    let at = lines * ENTRY_WORDS;
    words[at..at + ENTRY_WORDS].copy_from_slice(&entry);
    Place {
        kept: 0,
        lines: lines + 1,
    }
}

// One byte: a line feed ends the line so far, any other byte is kept.
fn feed_byte(words: &mut [u32], line: &mut [u8], kept: usize, lines: usize, byte: u8) -> Place
    requires { Fits words.old line.old kept lines }
    ensures fits { Fits words.new line.new result.kept result.lines }
    ensures lines_after { state words.new line.new result.kept result.lines ≡ fed (state words.old line.old kept lines) byte }
{
    if byte == LINE_FEED {
        return end_line(words, line, kept, lines);
    }
    if kept < KEPT_BYTES {
        line[kept] = byte;
        return Place {
            kept: kept + 1,
            lines,
        };
    }
    Place { kept, lines }
}

// A piece of the input.
pub fn feed(words: &mut [u32], line: &mut [u8], kept: usize, lines: usize, input: &[u8]) -> Place
    requires { Fits words.old line.old kept lines }
    ensures fits { Fits words.new line.new result.kept result.lines }
    ensures lines_after { state words.new line.new result.kept result.lines ≡ through (state words.old line.old kept lines) input.now }
{
    let mut place = Place { kept, lines };
    for byte in input {
        place = feed_byte(words, line, place.kept, place.lines, *byte);
    }
    place
}

// The end of the input: a last line without its line feed counts if not empty. How many lines there are is handed back.
pub fn finish(words: &mut [u32], line: &[u8], kept: usize, lines: usize) -> usize
    requires { Fits words.old line.now kept lines }
    ensures fits { Fits words.new line.now 0 result }
    ensures result_after { state words.new line.now 0 result ≡ finished (state words.old line.now kept lines) }
{
    if kept == 0 {
        return lines;
    }
    let place = end_line(words, line, kept, lines);
    place.lines
}
