// The reply to whatever is asked. A definition in specs/Replies.antt gives its answer on paper.
ghost use Rattle.std.specs.Prelude.{◌≡◌};
ghost use Rattle.paper.specs.Calls.{number_in};
ghost use Rattle.request.specs.Replies.{on_paper};

use paper::answer::{Page, Reading, Refusal, Written};
use paper::number::number_of;

// What a request that is done tells: a read, a write and a list their own, and any other that it is done.
#[derive(Clone, Copy)]
pub enum Reply {
    Done,
    Read(Reading),
    Written(Written),
    Listed(Page),
}

// The number of a reply: 0 is done.
pub fn number_in(reply: Result<Reply, Refusal>) -> u32
    ensures { result ≡ number_in (on_paper reply) }
{
    match reply {
        Ok(_) => 0,
        Err(r) => number_of(r),
    }
}
