// A frame is written: the checks, then the oldest untaken messages of a link. The book is only read, and `write_frame` asks nothing of its caller.
#![tactic(auto)]

ghost use Rattle.std.specs.Prelude.{◌≡◌, true, not, ◌≤◌, ◌<◌, length};
ghost use Rattle.order.specs.Record.{most_depots};
ghost use Rattle.book.specs.Layout.{book_words, links, counts_of};
ghost use Rattle.named.specs.Named.{waiting_fit, base_fit};
ghost use Rattle.frame.specs.Promises.{bad_count, Written};

use book::layout::{LINK_ROOM, Link};
use book::numbers::{Depot, Shelf};
use book::parts::{Counts, counts_of, held_of, taken_of, wide};
use frame::{FrameRefusal, ReadyRoute, Route};
use frame_bytes::{put_frame, size_of_frame};
use messages::{head_fits, waiting_fit};
use paper::answer::Refusal;
use register::check::check_link;

// Whether the head of a link and all that waits on it are fit.
fn waiting_fits(book: &[u32], n: Counts, s: Shelf, from: Depot, q: Link) -> bool
    requires { (length book.now ≡ book_words) × (n.depots ≤ most_depots) × (0 < n.shelves) × (q.0 < links) }
    ensures { result ≡ waiting_fit n book.now s.0 from.0 q.0 }
{
    if !head_fits(book, q) {
        return false;
    }
    let taken = taken_of(book, q);
    let messages = held_of(book, q);
    waiting_fit(book, n, s, from, q, taken, messages - taken)
}

// Whether a count is one of a frame, where so many wait.
#[tactic(auto, unfolding(frame::specs::Promises::bad_count))]
fn is_count(count: usize, waiting: usize) -> bool
    ensures { result ≡ not (bad_count count waiting) }
{
    0 < count && count <= LINK_ROOM && count <= waiting
}

// The same for numbers that were checked.
fn write_at(
    book: &[u32],
    d: Depot,
    s: Shelf,
    from: Depot,
    count: u32,
    serial: u16,
    out: &mut [u8],
) -> Result<usize, FrameRefusal>
    requires { (base_fit book.now ≡ true) × (d.0 < (counts_of book.now).depots) × (from.0 < (counts_of book.now).depots) × (s.0 < (counts_of book.now).shelves) }
    ensures { Written book.now d.0 s.0 from.0 count serial out.old result out.new }
{
    if d == from {
        return Err(FrameRefusal::Link(Refusal::SameDepot));
    }
    let n = counts_of(book);
    let q = Link::between(s, from, d);
    if !waiting_fits(book, n, s, from, q) {
        return Err(FrameRefusal::Link(Refusal::BadBook));
    }
    let messages = held_of(book, q);
    let taken = taken_of(book, q);
    if messages <= taken {
        return Err(FrameRefusal::Link(Refusal::EmptyLink));
    }
    let some = wide(count);
    if !is_count(some, messages - taken) {
        return Err(FrameRefusal::BadCount);
    }
    let size = size_of_frame(book, q, taken, some, n.depots);
    if out.len() < size {
        return Err(FrameRefusal::NoRoom);
    }
    let route = Route {
        counts: n,
        shelf: s,
        from,
        to: d,
    };
    put_frame(out, book, ReadyRoute { route }, q, taken, some, serial);
    Ok(size)
}

// Answers how many bytes the frame has that was written. Refuses, in this order: BAD BOOK, BAD DEPOT (either), BAD SHELF, SAME DEPOT, EMPTY LINK, BAD COUNT,
// NO ROOM.
pub fn write_frame(
    book: &[u32],
    depot: u32,
    shelf: u32,
    from: u32,
    count: u32,
    serial: u16,
    out: &mut [u8],
) -> Result<usize, FrameRefusal>
    ensures { Written book.now depot shelf from count serial out.old result out.new }
{
    let (d, s, o) = check_link(book, depot, shelf, from)?;
    write_at(book, d, s, o, count, serial, out)
}
