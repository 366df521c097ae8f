// The line reader: the first byte names the event, and its numbers follow, each after exactly one space.
ghost use Rattle.std.specs.Prelude.{◌≡◌, ◌≤◌, drop};
ghost use Rattle.line.specs.Grammar.{most_numbers};
ghost use Rattle.line.specs.Reading.{numbers_in, counted, reading, line_of};

use crate::digits::read_number;
use request::ask::Event;

// The most bytes that a line has, its line feed not counted, and the most numbers that it holds: each takes two bytes at least, after the letter's one.
pub const MOST_BYTES: usize = 120;

pub const MOST_NUMBERS: usize = 59;

// What a line says: the event, its numbers, of which the first `count` count, and 0 after them.
#[derive(Clone, Copy)]
pub struct Line {
    pub event: Event,
    pub numbers: [u32; MOST_NUMBERS],
    pub count: usize,
}

// The line of an event that takes `least` to `most` numbers, from its second byte on.
fn read_numbers(s: &[u8], event: Event, least: usize, most: usize) -> Option<Line>
    requires { most ≤ most_numbers }
    ensures { result ≡ line_of (counted event least (numbers_in most (drop 1 s.now))) }
{
    let mut numbers = [0u32; MOST_NUMBERS];
    let mut count = 0;
    let mut at = 1;
    while at < s.len() {
        if count == most {
            return None;
        }
        if s[at] != b' ' {
            return None;
        }
        let number = read_number(s, at + 1)?;
        numbers[count] = number.value;
        count += 1;
        at = number.next;
    }
    if count < least {
        return None;
    }
    Some(Line {
        event,
        numbers,
        count,
    })
}

// What a line of any bytes says; of a bad one nothing.
pub fn read_line(s: &[u8]) -> Option<Line>
    ensures { result ≡ line_of (reading s.now) }
{
    if MOST_BYTES < s.len() {
        return None;
    }
    if s.len() == 0 {
        return None;
    }
    match s[0] {
        b'S' => read_numbers(s, Event::Setup, 4, 20),
        b'R' => read_numbers(s, Event::Read, 2, 2),
        b'W' => read_numbers(s, Event::Write, 5, 5),
        b'K' => read_numbers(s, Event::Tick, 2, 2),
        b'T' => read_numbers(s, Event::Take, 3, 3),
        b'F' => read_numbers(s, Event::Refresh, 2, 2),
        b'L' => read_numbers(s, Event::List, 1, MOST_NUMBERS),
        _ => None,
    }
}
