// A call made together with its record. docs/JOURNAL.md tells the outcomes. `recorded` asks nothing of its caller.
#![tactic(auto)]

pub mod answer;

ghost use Rattle.std.specs.Prelude.{◌+◌, ◌≤◌, length};
ghost use Rattle.calls.specs.Performed.{asked};
ghost use Rattle.recorder.specs.Promises.{record_of, Appended, Recording};

use crate::answer::Recorded;
use calls::perform::perform;
use paper::answer::Refusal;
use record_writer::{size_of, write_record};
use request::ask::Request;
use request::reply::number_in;
use room::NO_ROOM;

// A call is made, and if it is done its record stands in `out` from `at` on.
pub fn record_at(
    book: &mut [u32],
    request: Request,
    beside: &[u32],
    out: &mut [u8],
    at: usize,
) -> Recorded
    requires { at + length (record_of book.old (asked request beside.now)) ≤ length out.old }
    ensures { Appended book.old (asked request beside.now) out.old at result book.new out.new }
{
    let reply = perform(book, request, beside);
    let number = number_in(reply);
    if number != 0 {
        return Recorded {
            number: number,
            reply: reply,
            size: 0,
        };
    }
    write_record(request, beside, out, at);
    let size = size_of(request, beside);
    Recorded {
        number: 0,
        reply: reply,
        size: size,
    }
}

// The same from the first place on. Without room for the record nothing is done, and the book is not looked at.
pub fn recorded(book: &mut [u32], request: Request, beside: &[u32], out: &mut [u8]) -> Recorded
    ensures { Recording book.old (asked request beside.now) out.old result book.new out.new }
{
    let size = size_of(request, beside);
    if out.len() < size {
        return Recorded {
            number: NO_ROOM,
            reply: Err(Refusal::BadBook),
            size: 0,
        };
    }
    record_at(book, request, beside, out, 0)
}
