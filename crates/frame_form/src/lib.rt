// Whether bytes are a frame of a link, and the messages that stand in them.
#![tactic(auto)]

ghost use Rattle.std.specs.Prelude.{◌≡◌, ◌&&◌, ◌+◌, ◌*◌, ◌≤◌, ◌<◌, eqb, length};
ghost use Rattle.order.specs.Record.{most_depots};
ghost use Rattle.frame.specs.Frame.{offset_at, body_at, count_in, start_in, entry_at, copy_at, message_at, message_right, head_right, messages_right, formed};
ghost use Rattle.frame_form.specs.Asks.{There};

use book::layout::{BEAT, LINK_ROOM};
use book::numbers::Numbered;
use frame::{FRONT, OFFSET, ReadyRoute, size_of, whom_of};
use messages::message_fits;
use wire::{half_at, wide_byte, word_at};

// A byte as a word.
pub fn word_of_byte(b: u8) -> u32
    ensures { result ≡ b }
{
    b as u32
}

// Entry x of the vector of the copy that begins at a place; past the depots it is 0.
fn entry_at(f: &[u8], at: usize, depots: usize, x: usize) -> u32
    requires { (at + 14 + 4 * depots ≤ length f.now) × (x < most_depots) }
    ensures { result ≡ entry_at depots f.now at x }
{
    if x < depots {
        return word_at(f, at + 14 + 4 * x);
    }
    0
}

// The ten words of the copy that begins at a place.
fn copy_at(f: &[u8], way: ReadyRoute, at: usize) -> [u32; 10]
    requires { at + 14 + 4 * way.route.counts.depots ≤ length f.now }
    ensures { result ≡ copy_at way.route f.now at }
{
    let depots = way.route.counts.depots;
    [
        word_of_byte(f[at]),
        word_of_byte(f[at + 1]),
        word_at(f, at + 2),
        word_at(f, at + 6),
        word_at(f, at + 10),
        way.route.from.index() as u32,
        entry_at(f, at, depots, 0),
        entry_at(f, at, depots, 1),
        entry_at(f, at, depots, 2),
        entry_at(f, at, depots, 3),
    ]
}

// The ten words of the message that begins at a place.
pub fn message_at(f: &[u8], way: ReadyRoute, at: usize) -> [u32; 10]
    requires { There way.route f.now at }
    ensures { result ≡ message_at way.route f.now at }
{
    if word_of_byte(f[at]) == BEAT {
        let stamp = word_at(f, at + 1);
        return [BEAT, stamp, 0, 0, 0, 0, 0, 0, 0, 0];
    }
    copy_at(f, way, at)
}

// Whether message i is right at a place.
#[tactic(auto, using(crate::proofs::FormLaws::right_strange), unfolding(frame::specs::Frame::message_right))]
fn message_is_right(f: &[u8], way: ReadyRoute, i: usize, at: usize) -> bool
    requires { offset_at i + 2 ≤ length f.now }
    ensures { result ≡ message_right way.route f.now i at }
{
    if half_at(f, FRONT + OFFSET * i) != at || f.len() <= at {
        return false;
    }
    let route = way.route;
    let n = route.counts;
    let size = size_of(n.depots, word_of_byte(f[at]));
    0 < size
        && size <= f.len() - at
        && message_fits(&message_at(f, way, at), n, route.shelf, route.from)
}

// Whether each message is right where the one before it ends, and the last ends where the bytes end.
fn messages_are_right(f: &[u8], way: ReadyRoute, count: usize) -> bool
    requires { (count ≡ count_in f.now) × (body_at count ≤ length f.now) }
    ensures { result ≡ messages_right way.route f.now && eqb (start_in way.route.counts.depots f.now (count_in f.now)) (length f.now) }
{
    let depots = way.route.counts.depots;
    let mut at = FRONT + OFFSET * count;
    for i in 0..count {
        if !message_is_right(f, way, i, at) {
            return false;
        }
        at += size_of(depots, word_of_byte(f[at]));
    }
    at == f.len()
}

// Whether the header is there and for this link.
#[tactic(auto, unfolding(frame::specs::Frame::head_right, fit::specs::Fit::between))]
fn head_is_right(f: &[u8], way: ReadyRoute) -> bool
    ensures { result ≡ head_right way.route f.now }
{
    if f.len() < FRONT || f[0] != whom_of(way) {
        return false;
    }
    let count = wide_byte(f[1]);
    0 < count && count <= LINK_ROOM && FRONT + OFFSET * count <= f.len()
}

// Whether the bytes are a frame of this link.
#[tactic(auto, unfolding(frame::specs::Frame::formed))]
pub fn is_formed(f: &[u8], way: ReadyRoute) -> bool
    ensures { result ≡ formed way.route f.now }
{
    head_is_right(f, way) && messages_are_right(f, way, wide_byte(f[1]))
}
