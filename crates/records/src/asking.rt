// What a kind with its numbers asks.
ghost use Rattle.std.specs.Prelude.{◌≡◌, ◌≤◌, length};
ghost use Rattle.calls.specs.Performed.{asked};
ghost use Rattle.journal.specs.Record.{request_by};
ghost use Rattle.records.specs.Kinds.{own_of, beside_by};

use crate::kinds::shape_of;
use journal::record::Kind;
use request::ask::{Event, Request, request_of};

// The request of a kind with its numbers.
#[tactic(auto, unfolding(request::specs::Requests::request_in, journal::specs::Record::form_of, journal::specs::Record::request_by, crate::specs::Kinds::shape_by, crate::specs::Kinds::own_of, crate::specs::Kinds::beside_by))]
pub fn request_by(kind: Kind, numbers: &[u32]) -> Request
    requires { own_of kind ≤ length numbers.now }
    ensures { asked result (beside_by kind numbers.now) ≡ request_by kind numbers.now }
{
    match kind {
        Kind::Setup => request_of(Event::Setup, numbers),
        Kind::Read => request_of(Event::Read, numbers),
        Kind::Write => request_of(Event::Write, numbers),
        Kind::Tick => request_of(Event::Tick, numbers),
        Kind::Take => request_of(Event::Take, numbers),
        Kind::Refresh => request_of(Event::Refresh, numbers),
        Kind::Move => Request::Move {
            crew: numbers[0],
            depot: numbers[1],
        },
        Kind::Page => request_of(Event::List, numbers),
    }
}

// The numbers that stand beside it: the homes of a setup, the bearings of a list.
pub fn beside_by(kind: Kind, numbers: &[u32]) -> &[u32]
    requires { own_of kind ≤ length numbers.now }
    ensures { result.now ≡ beside_by kind numbers.now }
{
    let shape = shape_of(kind);
    let own = shape.own;
    &numbers[own..]
}
