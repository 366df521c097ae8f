// The desk's answers, without the line feed, into an output that is lent. Each function says the place after what it wrote.
ghost use Rattle.std.specs.Prelude.{◌≡◌, ◌≤◌, take, length};
ghost use Rattle.line.specs.Answers.{number_answer, value_told, unwritten_told, value_answer, unwritten_answer, standing, stamp_answer};
ghost use Rattle.line.specs.Printing.{Room, Wrote};

use crate::printer::{print_number, print_numbers, print_spaced};
use paper::answer::Payload;

// A refusal's number, or the 0 of a call that has nothing more to say.
pub fn answer_number(out: &mut [u8], at: usize, n: u32) -> usize
    requires { Room out.old at (number_answer n) }
    ensures { Wrote out.old at (number_answer n) out.new result }
{
    print_number(out, at, n)
}

// What is told of a bearing that is written: its value and the two words of its card, and the first `depots` entries of its vector.
pub fn print_value(
    out: &mut [u8],
    at: usize,
    payload: Payload,
    vector: &[u32],
    depots: usize,
) -> usize
    requires { (depots ≤ length vector.now) × Room out.old at (value_told payload (take depots vector.now)) }
    ensures { Wrote out.old at (value_told payload (take depots vector.now)) out.new result }
{
    let told = [payload.value, payload.diameter, payload.width];
    let next = print_numbers(out, at, &told, 3);
    print_numbers(out, next, vector, depots)
}

// And of one that is unwritten.
pub fn print_unwritten(out: &mut [u8], at: usize, vector: &[u32], depots: usize) -> usize
    requires { (depots ≤ length vector.now) × Room out.old at (unwritten_told (take depots vector.now)) }
    ensures { Wrote out.old at (unwritten_told (take depots vector.now)) out.new result }
{
    out[at] = b' ';
    let second = at + 1;
    out[second] = b'-';
    print_numbers(out, second + 1, vector, depots)
}

// A read of a bearing that is written.
pub fn answer_value(
    out: &mut [u8],
    at: usize,
    payload: Payload,
    vector: &[u32],
    depots: usize,
) -> usize
    requires { (depots ≤ length vector.now) × Room out.old at (value_answer payload (take depots vector.now)) }
    ensures { Wrote out.old at (value_answer payload (take depots vector.now)) out.new result }
{
    out[at] = b'0';
    print_value(out, at + 1, payload, vector, depots)
}

// A read of a bearing that is unwritten.
pub fn answer_unwritten(out: &mut [u8], at: usize, vector: &[u32], depots: usize) -> usize
    requires { (depots ≤ length vector.now) × Room out.old at (unwritten_answer (take depots vector.now)) }
    ensures { Wrote out.old at (unwritten_answer (take depots vector.now)) out.new result }
{
    out[at] = b'0';
    print_unwritten(out, at + 1, vector, depots)
}

// C for current, S for superseded.
fn standing_of(current: bool) -> u8
    ensures { result ≡ standing current }
{
    if current {
        return b'C';
    }
    b'S'
}

// A write's stamp, and whether it is current.
pub fn answer_stamp(out: &mut [u8], at: usize, stamp: u32, current: bool) -> usize
    requires { Room out.old at (stamp_answer stamp current) }
    ensures { Wrote out.old at (stamp_answer stamp current) out.new result }
{
    out[at] = b'0';
    let next = print_spaced(out, at + 1, stamp);
    out[next] = b' ';
    let last = next + 1;
    out[last] = standing_of(current);
    last + 1
}
