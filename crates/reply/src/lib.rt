// A reply to the byte, without the line feed, into an output that is lent: what is printed is a function of the reply alone.
#![tactic(auto)]

pub mod page;

ghost use Rattle.std.specs.Prelude.{◌+◌, ◌≤◌, length, Ok};
ghost use Rattle.line.specs.Printing.{Wrote};
ghost use Rattle.paper.specs.Answers.{paper_read, paper_write, Holds, tellings};
ghost use Rattle.request.specs.Replies.{on_paper, Carries};
ghost use Rattle.reply.specs.Printed.{answer_room, printed};

use crate::page::say_list;
use line::answers::{answer_number, answer_stamp, answer_unwritten, answer_value};
use paper::answer::{Reading, Refusal, Written};
use paper::number::number_of;
use request::reply::Reply;

// The room that every answer has, its line feed counted: the longest is a list's, 0 and what is told of eight bearings.
pub const ANSWER_ROOM: usize = 618;

// The bytes of what a read tells stand in `out` from `at` on; says the place after them.
fn say_reading(reading: Reading, out: &mut [u8], at: usize) -> usize
    requires { Holds (paper_read (Ok reading)) reading.vector reading.depots × (at + answer_room ≤ length out.old) }
    ensures { Wrote out.old at (printed (paper_read (Ok reading))) out.new result }
{
    let vector = reading.vector;
    let depots = reading.depots;
    match reading.payload {
        Some(p) => answer_value(out, at, p, &vector, depots),
        None => answer_unwritten(out, at, &vector, depots),
    }
}

// The same of a write.
fn say_written(written: Written, out: &mut [u8], at: usize) -> usize
    requires { at + answer_room ≤ length out.old }
    ensures { Wrote out.old at (printed (paper_write (Ok written))) out.new result }
{
    match written {
        Written::Current(stamp) => answer_stamp(out, at, stamp, true),
        Written::Superseded(stamp) => answer_stamp(out, at, stamp, false),
    }
}

// The bytes of the reply stand in `out` from `at` on; says the place after them.
pub fn say(reply: Result<Reply, Refusal>, out: &mut [u8], at: usize) -> usize
    requires { Carries (on_paper reply) reply × (length (tellings (on_paper reply)) ≤ 8) × (at + answer_room ≤ length out.old) }
    ensures { Wrote out.old at (printed (on_paper reply)) out.new result }
{
    match reply {
        Ok(told) => match told {
            Reply::Done => answer_number(out, at, 0),
            Reply::Read(reading) => say_reading(reading, out, at),
            Reply::Written(written) => say_written(written, out, at),
            Reply::Listed(page) => {
                let words = page.words;
                say_list(&words, page.bearings, page.depots, out, at)
            }
        },
        Err(r) => answer_number(out, at, number_of(r)),
    }
}
