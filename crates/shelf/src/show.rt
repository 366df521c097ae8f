// Raise and show.
ghost use Rattle.std.specs.Prelude.{◌≡◌, ℕ, ◌+◌, ◌≤◌, ◌<◌, eqb, length};
ghost use Rattle.loops.specs.Loops.{pick};
ghost use Rattle.order.specs.Record.{record_words, most_depots, bearing_of, vector_of};
ghost use Rattle.order.specs.Vector.{vector_in, covered};
ghost use Rattle.book.specs.Words.{part, put};
ghost use Rattle.book.specs.Layout.{book_words, links, link_room, bearing_room, most_shelves, stored_at, slot_at, slot, stable, record_of, link_of};
ghost use Rattle.shelf.specs.Show.{kept_in, sweep_one, swept, shown_link, shown, settled};
ghost use Rattle.shelf.specs.Asks.{Sound, Ready};

use crate::link::close_up;
use book::layout::{
    BEARING_ROOM, Link, SLOT_RECORD, SLOT_VECTOR, SLOT_WORDS, stable_at, stored_at,
};
use book::numbers::{Bearing, Depot, Numbered, Shelf};
use book::parts::{held_of, set_head, taken_of, wide};
use book::words::copy_words;
use order::record::{MOST_DEPOTS, RECORD_WORDS, is_above};
use order::vector::{is_covered, merge};

// The record that stands at a place replaces the stored version of its bearing, which is given, if it is greater.
pub fn keep(book: &mut [u32], n: usize, d: Depot, k: Bearing, at: usize)
    requires { (length book.old ≡ book_words) × (n ≤ most_depots) × (d.0 < most_depots) × (k.0 < bearing_room)
        × (at + record_words ≤ stored_at 0 0) × (bearing_of (part book.old at record_words) ≡ k.0) }
    ensures { book.new ≡ kept_in n d.0 (part book.old at record_words) book.old }
{
    let to = stored_at(d, k);
    let end = at + RECORD_WORDS;
    let to_end = to + RECORD_WORDS;
    if is_above(&book[at..end], &book[to..to_end], n) {
        copy_words(book, at, to, RECORD_WORDS);
    }
}

// Whether the copy in slot i of a link is covered by the shelf's stable vector in all entries but this depot's own.
fn is_slot_covered(book: &[u32], n: usize, d: Depot, s: Shelf, q: Link, i: usize) -> bool
    requires { (length book.now ≡ book_words) × (n ≤ most_depots) × (d.0 < most_depots) × (s.0 < most_shelves) × (q.0 < links) × (i < link_room) }
    ensures { covered n d.0 (vector_of (record_of (slot book.now q.0 i))) (stable book.now d.0 s.0) ≡ result }
{
    let at = q.slot_at(i);
    let vector = at + SLOT_VECTOR;
    let end = at + SLOT_WORDS;
    let to = stable_at(d, s);
    let to_end = to + MOST_DEPOTS;
    is_covered(&book[vector..end], &book[to..to_end], n, d.index())
}

// The message in slot i of a link stands in slot `to`, which is no later one.
fn move_slot(book: &mut [u32], q: Link, i: usize, to: usize)
    requires { (length book.old ≡ book_words) × (q.0 < links) × (i < link_room) × (to ≤ i) }
    ensures { book.new ≡ put book.old (slot_at q.0 to) (slot book.old q.0 i) }
{
    if to == i {
        return;
    }
    copy_words(book, q.slot_at(i), q.slot_at(to), SLOT_WORDS);
}

// The copy in slot i of a link replaces the stored version of its bearing if it is greater.
fn keep_slot(book: &mut [u32], n: usize, d: Depot, q: Link, i: usize)
    requires { (length book.old ≡ book_words) × (n ≤ most_depots) × (d.0 < most_depots) × (q.0 < links) × (i < link_room) × (bearing_of (record_of (slot book.old q.0 i)) < bearing_room) }
    ensures { book.new ≡ kept_in n d.0 (record_of (slot book.old q.0 i)) book.old }
{
    let version = q.slot_at(i) + SLOT_RECORD;
    let k = Bearing::nth(wide(book[version]), BEARING_ROOM);
    keep(book, n, d, k, version);
}

// The taken copy in slot i: covered in all entries but this depot's own, it is shown and leaves the link; else it moves down to the first free
// slot. Answers how many taken copies stay on the link so far.
fn show_slot(
    book: &mut [u32],
    n: usize,
    d: Depot,
    s: Shelf,
    q: Link,
    i: usize,
    kept: usize,
) -> usize
    requires { (length book.old ≡ book_words) × (n ≤ most_depots) × (d.0 < most_depots) × (s.0 < most_shelves) × (q.0 < links) × (i < link_room)
        × (kept ≤ i) × (bearing_of (record_of (slot book.old q.0 i)) < bearing_room) }
    ensures { sweep_one n d.0 s.0 q.0 i (record { words = book.old; kept = kept }) ≡ record { words = book.new; kept = result } }
{
    if is_slot_covered(book, n, d, s, q, i) {
        keep_slot(book, n, d, q, i);
        return kept;
    }
    move_slot(book, q, i, kept);
    kept + 1
}

// The first `count` copies of a link, oldest first, each shown or moved down. Answers how many stay on the link.
fn sweep(book: &mut [u32], n: usize, d: Depot, s: Shelf, q: Link, count: usize) -> usize
    requires { (length book.old ≡ book_words) × (n ≤ most_depots) × (d.0 < most_depots) × (s.0 < most_shelves) × (q.0 < links) × (count ≤ link_room)
        × ((i : ℕ) → i < count → bearing_of (record_of (slot book.old q.0 i)) < bearing_room) }
    ensures { swept n d.0 s.0 q.0 count book.old ≡ record { words = book.new; kept = result } }
{
    let mut kept = 0;
    for i in 0..count {
        kept = show_slot(book, n, d, s, q, i, kept);
    }
    kept
}

// A number up to the room of a link, as a word.
pub fn word(count: usize) -> u32
    requires { count ≤ link_room }
    ensures { result ≡ count }
{
    count as u32
}

// The incoming link from a depot is shown: its covered taken copies leave it, and the messages behind close up.
fn show_link(book: &mut [u32], n: usize, d: Depot, s: Shelf, from: Depot)
    requires { (length book.old ≡ book_words) × (n ≤ most_depots) × (d.0 < most_depots) × (s.0 < most_shelves) × (from.0 < most_depots) × Sound book.old (link_of s.0 from.0 d.0) }
    ensures { book.new ≡ shown_link n d.0 s.0 from.0 book.old }
{
    let q = Link::between(s, from, d);
    let held = held_of(book, q);
    let taken = taken_of(book, q);
    let kept = sweep(book, n, d, s, q, taken);
    let gone = taken - kept;
    close_up(book, q, kept, gone, held);
    set_head(book, q, word(held - gone), word(kept));
}

// From depot 0 on, each incoming link of a shelf is shown; a depot has no link to itself.
fn show(book: &mut [u32], n: usize, d: Depot, s: Shelf)
    requires { (length book.old ≡ book_words) × Ready n d.0 s.0 book.old }
    ensures { book.new ≡ shown n d.0 s.0 book.old }
{
    for number in 0..n {
        let from = Depot::nth(number, n);
        if from == d {
            continue;
        }
        show_link(book, n, d, s, from);
    }
}

// Raise and show: each other-depot entry of the stable vector becomes the larger of itself and what is offered; then each taken copy that is
// covered is shown.
pub fn settle(book: &mut [u32], n: usize, d: Depot, s: Shelf, offered: &[u32])
    requires { (length book.old ≡ book_words) × (length offered.now ≡ most_depots) × Ready n d.0 s.0 book.old }
    ensures { book.new ≡ settled n d.0 s.0 (vector_in offered.now) book.old }
{
    merge(book, stable_at(d, s), offered, n, d.index());
    show(book, n, d, s);
}
