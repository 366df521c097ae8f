// Taking: the first untaken message of a link, its stamp, and what becomes of it.
#![tactic(auto)]

ghost use Rattle.std.specs.Prelude.{◌≡◌, ◌+◌, ◌-◌, ◌≤◌, ◌<◌, eqb, length, set};
ghost use Rattle.loops.specs.Loops.{pick};
ghost use Rattle.order.specs.Record.{most_depots};
ghost use Rattle.book.specs.Layout.{book_words, links, link_room, most_shelves, beat_kind, link_of, held, taken, slot, held_at, taken_at, kind_of};
ghost use Rattle.shelf.specs.Show.{closed_up};
ghost use Rattle.links.specs.Send.{stamp_from, took};

use book::layout::{BEAT, Link, SLOT_STAMP, SLOT_VECTOR};
use book::numbers::{Depot, Numbered, Shelf};
use book::parts::{held_of, set_seen, taken_of};
use shelf::link::close_up;
use shelf::show::word;

// Whether the message in slot i of a link is a heartbeat.
fn is_beat(book: &[u32], q: Link, i: usize) -> bool
    requires { (length book.now ≡ book_words) × (q.0 < links) × (i < link_room) }
    ensures { result ≡ eqb (kind_of (slot book.now q.0 i)) beat_kind }
{
    book[q.slot_at(i)] == BEAT
}

// The stamp of the message in slot i of a link from a depot: a heartbeat's own, a copy's entry of that depot.
fn stamp_of(book: &[u32], q: Link, i: usize, from: Depot) -> u32
    requires { (length book.now ≡ book_words) × (q.0 < links) × (i < link_room) × (from.0 < most_depots) }
    ensures { result ≡ stamp_from from.0 (slot book.now q.0 i) }
{
    let at = q.slot_at(i);
    if is_beat(book, q, i) {
        return book[at + SLOT_STAMP];
    }
    book[at + SLOT_VECTOR + from.index()]
}

// The first untaken message of a link is gone, where it is a heartbeat; else it is one of the taken.
fn move_on(book: &mut [u32], q: Link, count: usize, done: usize, beat: bool)
    requires { (length book.old ≡ book_words) × (q.0 < links) × (done < count) × (count ≤ link_room) }
    ensures { book.new ≡ pick beat (set (closed_up q.0 done 1 count book.old) (held_at q.0) (count - 1)) (set book.old (taken_at q.0) (done + 1)) }
{
    if beat {
        close_up(book, q, done, 1, count);
        book[q.held_at()] = word(count - 1);
        return;
    }
    book[q.taken_at()] = word(done + 1);
}

// The first untaken message from a depot is taken: the stamp seen becomes its stamp.
pub fn take_one(book: &mut [u32], d: Depot, s: Shelf, from: Depot)
    requires { (length book.old ≡ book_words) × (d.0 < most_depots) × (s.0 < most_shelves) × (from.0 < most_depots)
        × (taken book.old (link_of s.0 from.0 d.0) < held book.old (link_of s.0 from.0 d.0))
        × (held book.old (link_of s.0 from.0 d.0) ≤ link_room) }
    ensures { book.new ≡ took d.0 s.0 from.0 book.old }
{
    let q = Link::between(s, from, d);
    let count = held_of(book, q);
    let done = taken_of(book, q);
    let beat = is_beat(book, q, done);
    let stamp = stamp_of(book, q, done, from);
    set_seen(book, d, s, from, stamp);
    move_on(book, q, count, done, beat);
}
