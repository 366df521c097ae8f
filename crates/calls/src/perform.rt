// The dispatcher: a request is performed by the call that it names.
ghost use Rattle.std.specs.Prelude.{◌≡◌};
ghost use Rattle.paper.specs.Answers.{paper};
ghost use Rattle.request.specs.Replies.{on_paper, Carries};
ghost use Rattle.calls.specs.Performed.{asked, Performed};

use page::list;
use paper::answer::Refusal;
use read::read;
use refresh::refresh;
use rehome::move_crew;
use request::ask::Request;
use request::reply::Reply;
use setup::setup;
use take::take;
use tick::tick;
use write::write;

// The reply to a setup, a tick, a take, a refresh or a move.
fn answered(answer: Result<(), Refusal>) -> Result<Reply, Refusal>
    ensures { (on_paper result ≡ paper answer) × Carries (on_paper result) result }
{
    match answer {
        Ok(()) => Ok(Reply::Done),
        Err(r) => Err(r),
    }
}

// A request, with the numbers beside it, the homes of a setup or the bearings of a list, is performed on the book and replied to. Any book and any numbers get a reply.
pub fn perform(book: &mut [u32], request: Request, beside: &[u32]) -> Result<Reply, Refusal>
    ensures { Performed book.old (asked request beside.now) result book.new }
{
    match request {
        Request::Setup {
            depots,
            shelves,
            bearings,
            crews,
        } => answered(setup(book, depots, shelves, bearings, crews, beside)),
        Request::Read { crew, bearing } => read(book, crew, bearing).map(Reply::Read),
        Request::Write {
            crew,
            bearing,
            payload,
        } => write(book, crew, bearing, payload).map(Reply::Written),
        Request::Tick { depot, shelf } => answered(tick(book, depot, shelf)),
        Request::Take { depot, shelf, from } => answered(take(book, depot, shelf, from)),
        Request::Refresh { depot, shelf } => answered(refresh(book, depot, shelf)),
        Request::Move { crew, depot } => answered(move_crew(book, crew, depot)),
        Request::List { crew } => list(book, crew, beside).map(Reply::Listed),
    }
}
