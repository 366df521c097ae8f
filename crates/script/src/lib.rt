// A script: lines of the desk, each with the answer that it must get on the line after it. It is run on a book, and every answer compared.
#![tactic(auto)]

ghost use Rattle.std.specs.Prelude.{◌≡◌, ◌+◌, ◌<◌, ◌≤◌, length, get_or, drop};
ghost use Rattle.events.specs.Answering.{answer_to, book_after_line};
ghost use Rattle.reply.specs.Printed.{answer_room};
ghost use Rattle.script.specs.Script.{fed_lines, line_size, first_line, Runs, book_run, RunsTimes, book_times, Exactly};

use events::answer::{LINE_FEED, answer_line};

// The place of the line feed of the line that stands at `at`, or the end of the text.
fn line_end(s: &[u8], at: usize) -> usize
    ensures { result ≡ at + line_size (drop at s.now) }
{
    for i in at..s.len() {
        if s[i] == LINE_FEED {
            return i;
        }
    }
    at.max(s.len())
}

// The place after that line, its line feed passed.
fn line_after(s: &[u8], at: usize) -> usize
    ensures { result ≡ at + length (first_line (drop at s.now)) }
{
    let end = line_end(s, at);
    if end < s.len() {
        return end + 1;
    }
    end
}

// The line is done; whether its answer is the expected one. The answer stands in `out`.
fn is_answered(book: &mut [u32], out: &mut [u8], line: &[u8], expected: &[u8]) -> bool
    requires { answer_room ≤ length out.old }
    ensures book_after { book.new ≡ book_after_line book.old line.now }
    ensures exactly { Exactly result (expected.now ≡ answer_to book.old line.now) }
{
    let n = answer_line(book, line, out, 0);
    let said = &out[..n];
    said == expected
}

// All lines of the script are done; whether every one gets its answer. `out` has room for one answer at a time.
pub fn runs(book: &mut [u32], out: &mut [u8], script: &[u8]) -> bool
    requires { answer_room ≤ length out.old }
    ensures book_after { book.new ≡ book_run book.old (fed_lines script.now) }
    ensures exactly { Exactly result (Runs book.old (fed_lines script.now)) }
{
    let mut good = true;
    let mut at = 0;
    while at < script.len() {
        let feed = line_end(script, at);
        let end = line_after(script, at);
        let stop = line_after(script, end);
        good = is_answered(book, out, &script[at..feed], &script[end..stop]) && good;
        at = stop;
    }
    good
}

// The same script again and again, so many times.
pub fn repeated(book: &mut [u32], out: &mut [u8], script: &[u8], times: usize) -> bool
    requires { answer_room ≤ length out.old }
    ensures book_after { book.new ≡ book_times times book.old (fed_lines script.now) }
    ensures exactly { Exactly result (RunsTimes times book.old (fed_lines script.now)) }
{
    let mut good = true;
    'times: for _ in 0..times {
        good = runs(book, out, script) && good;
    }
    good
}

// Whether a word of the book has this value.
pub fn is_word(book: &[u32], at: usize, value: u32) -> bool
    ensures { Exactly result ((at < length book.now) × (get_or book.now at 0 ≡ value)) }
{
    at < book.len() && book[at] == value
}
