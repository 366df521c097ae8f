// A frame is read: its form, its serial; and what it carries is handed out. The book is only read, and `read_frame` asks nothing of its caller.
#![tactic(auto)]

ghost use Rattle.std.specs.Prelude.{◌≡◌, ◌*◌, ◌<◌, ◌≤◌, true, length};
ghost use Rattle.paper.specs.Calls.{first};
ghost use Rattle.book.specs.Words.{put};
ghost use Rattle.book.specs.Layout.{slot_words, counts_of};
ghost use Rattle.named.specs.Named.{base_fit};
ghost use Rattle.frame.specs.Frame.{count_in, formed, body_in};
ghost use Rattle.frame.specs.Promises.{Outcome, arrival_rows, WasRead};

use book::layout::SLOT_WORDS;
use book::numbers::{Depot, Shelf};
use book::parts::counts_of;
use book::words::write_words;
use frame::{FRONT, FrameRefusal, OFFSET, ReadyRoute, Route, size_of};
use frame_form::{is_formed, message_at, word_of_byte};
use paper::answer::Refusal;
use register::check::check_link;
use wire::{half_at, wide_byte};

// The words of its messages stand in the buffer.
fn hand_out(f: &[u8], way: ReadyRoute, count: usize, out: &mut [u32])
    requires { (formed way.route f.now ≡ true) × (count ≡ count_in f.now) × (slot_words * count ≤ length out.old) }
    ensures { out.new ≡ put out.old 0 (body_in way.route f.now) }
{
    let depots = way.route.counts.depots;
    let mut at = FRONT + OFFSET * count;
    for i in 0..count {
        let m = message_at(f, way, at);
        write_words(out, SLOT_WORDS * i, &m);
        at += size_of(depots, word_of_byte(f[at]));
    }
}

// A frame for a link where this serial is expected: its form, its serial, the room.
fn read_on(f: &[u8], way: ReadyRoute, expected: u16, out: &mut [u32]) -> Result<usize, FrameRefusal>
    ensures { Outcome
        (first (arrival_rows way.route expected f.now (length out.old)))
        (count_in f.now)
        (put out.old 0 (body_in way.route f.now))
        out.old result out.new }
{
    if !is_formed(f, way) {
        return Err(FrameRefusal::BadFrame);
    }
    let serial = half_at(f, OFFSET) as u16;
    let behind = expected.wrapping_sub(serial);
    if behind != 0 {
        if behind <= 32767 {
            return Err(FrameRefusal::Old);
        }
        return Err(FrameRefusal::Gap);
    }
    let count = wide_byte(f[1]);
    if out.len() < SLOT_WORDS * count {
        return Err(FrameRefusal::NoRoom);
    }
    hand_out(f, way, count, out);
    Ok(count)
}

// The same for numbers that were checked.
fn read_at(
    book: &[u32],
    d: Depot,
    s: Shelf,
    from: Depot,
    expected: u16,
    f: &[u8],
    out: &mut [u32],
) -> Result<usize, FrameRefusal>
    requires { (base_fit book.now ≡ true) × (d.0 < (counts_of book.now).depots) × (from.0 < (counts_of book.now).depots) × (s.0 < (counts_of book.now).shelves) }
    ensures { WasRead book.now d.0 s.0 from.0 expected f.now out.old result out.new }
{
    if d == from {
        return Err(FrameRefusal::Link(Refusal::SameDepot));
    }
    let route = Route {
        counts: counts_of(book),
        shelf: s,
        from,
        to: d,
    };
    read_on(f, ReadyRoute { route }, expected, out)
}

// Answers how many messages were handed out. Refuses, in this order: BAD BOOK, BAD DEPOT (either), BAD SHELF, SAME DEPOT, BAD FRAME, OLD, GAP, NO ROOM.
pub fn read_frame(
    book: &[u32],
    depot: u32,
    shelf: u32,
    from: u32,
    expected: u16,
    frame: &[u8],
    out: &mut [u32],
) -> Result<usize, FrameRefusal>
    ensures { WasRead book.now depot shelf from expected frame.now out.old result out.new }
{
    let (d, s, o) = check_link(book, depot, shelf, from)?;
    read_at(book, d, s, o, expected, frame, out)
}
