// What the writer and the reader of frames share: the link, the size of a message, the first byte, and why they refuse.
#![tactic(auto)]

ghost use Rattle.std.specs.Prelude.{◌≡◌, ◌≤◌, ◌<◌};
ghost use Rattle.order.specs.Record.{most_depots};
ghost use Rattle.frame.specs.declared.FrameRefusal.TheVariants.{Link};
ghost use Rattle.frame.specs.Frame.{size_of, whom};
ghost use Rattle.frame.specs.Promises.{Ready};

use book::layout::{BEAT, COPY};
use book::numbers::{Depot, Numbered, Shelf};
use book::parts::Counts;
use paper::answer::Refusal;

// Bytes before the offsets, and of an offset.
pub const FRONT: usize = 4;

pub const OFFSET: usize = 2;

// The link that a frame is for, and the counts of its register.
#[derive(Clone, Copy)]
pub struct Route {
    pub counts: Counts,
    pub shelf: Shelf,
    pub from: Depot,
    pub to: Depot,
}

// One whose numbers were checked.
#[derive(Clone, Copy)]
pub struct ReadyRoute {
    pub route: Route,
    pub ghost ready: { Ready route },
}

// Why a frame was not written, or handed out nothing.
#[derive(Clone, Copy)]
pub enum FrameRefusal {
    // As a take is refused.
    Link(Refusal),
    NoRoom,
    BadCount,
    BadFrame,
    Old,
    Gap,
}

impl From<Refusal> for FrameRefusal {
    ghost from_gives = { λ refusal e. e ≡ Link refusal };

    fn from(refusal: Refusal) -> FrameRefusal {
        FrameRefusal::Link(refusal)
    }
}

// How many bytes a message of this kind takes; 0 where there is no such kind.
pub fn size_of(depots: usize, kind: u32) -> usize
    requires { depots ≤ most_depots }
    ensures { result ≡ size_of depots kind }
{
    if kind == BEAT {
        return 5;
    }
    if kind == COPY {
        return 14 + 4 * depots;
    }
    0
}

// The first byte of a frame: for whom it is.
pub fn whom_of(way: ReadyRoute) -> u8
    ensures { result ≡ whom way.route }
{
    let Route {
        counts,
        shelf,
        from,
        to,
    } = way.route;
    (64 * (counts.depots - 1) + 16 * shelf.index() + 4 * from.index() + to.index()) as u8
}
