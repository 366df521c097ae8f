// The answer's line.
ghost use Rattle.std.specs.Prelude.{◌≤◌, length};
ghost use Rattle.line.specs.Printing.{Room, Wrote};
ghost use Rattle.report.specs.Report.{answer_room, numbered, ended, spoken_finding, spoken};

use crate::report::Said;
use auditor::finding::Finding;
use line::printer::print_number;

// The room that every answer has.
pub const ANSWER_ROOM: usize = 32;

// The bytes of a text, from the place `at` on.
fn print_text(out: &mut [u8], at: usize, text: &[u8]) -> usize
    requires { Room out.old at text.now }
    ensures { Wrote out.old at text.now out.new result }
{
    let next = at + text.len();
    out[at..next].copy_from_slice(text);
    next
}

// A text and the end of the line.
fn say_text(out: &mut [u8], text: &[u8]) -> usize
    requires { Room out.old 0 (ended text.now) }
    ensures { Wrote out.old 0 (ended text.now) out.new result }
{
    let next = print_text(out, 0, text);
    out[next] = b'\n';
    next + 1
}

// A text, a number and the end of the line.
fn say_numbered(out: &mut [u8], text: &[u8], n: u32) -> usize
    requires { Room out.old 0 (ended (numbered text.now n)) }
    ensures { Wrote out.old 0 (ended (numbered text.now n)) out.new result }
{
    let next = print_text(out, 0, text);
    let last = print_number(out, next, n);
    out[last] = b'\n';
    last + 1
}

fn say_finding(out: &mut [u8], finding: Finding) -> usize
    requires { answer_room ≤ length out.old }
    ensures { Wrote out.old 0 (spoken_finding finding) out.new result }
{
    match finding {
        Finding::TooMany => say_text(out, b"too many"),
        Finding::BadLength => say_text(out, b"bad length"),
        Finding::Refused(n) => say_numbered(out, b"refused ", n),
        Finding::Circle(n) => say_numbered(out, b"circle ", n),
        Finding::Low(n) => say_numbered(out, b"low ", n),
        Finding::Causal => say_text(out, b"causal"),
    }
}

// The line of an answer, from the beginning of the output on.
pub fn say(out: &mut [u8], said: Said) -> usize
    requires { answer_room ≤ length out.old }
    ensures { Wrote out.old 0 (spoken said) out.new result }
{
    match said {
        Said::BadLine(n) => say_numbered(out, b"bad line ", n),
        Said::Found(finding) => say_finding(out, finding),
    }
}
