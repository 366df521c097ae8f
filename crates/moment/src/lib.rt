// One moment at a depot: what its shelves offer together, every shelf raised with it and shown, and of each bearing of a list what is told and merged into the crew's vector.
#![tactic(auto)]

ghost use Rattle.std.specs.Prelude.{◌≡◌, true, map, ℕ, ◌+◌, ◌≤◌, ◌<◌, length, replicate};
ghost use Rattle.order.specs.Record.{most_depots, record_words, vector_of};
ghost use Rattle.order.specs.Vector.{vector_in, merged_at};
ghost use Rattle.paper.specs.Answers.{told_words, page_words};
ghost use Rattle.book.specs.Words.{put};
ghost use Rattle.book.specs.Layout.{book_words, most_shelves, most_crews, bearing_room, crew_at, stable, stored};
ghost use Rattle.named.specs.Named.{is_list, all_below};
ghost use Rattle.shelf.specs.Asks.{Ready};
ghost use Rattle.register.specs.Answers.{told};
ghost use Rattle.register.specs.Calls.{gathered_from, settled_all, merged_all};

use book::layout::{crew_at, stable_at, stored_at};
use book::numbers::{Bearing, Crew, Depot, Numbered, Shelf};
use book::parts::Counts;
use book::words::write_words;
use named_call::bearing_at;
use order::record::{DIAMETER, MOST_DEPOTS, RECORD_WORDS, VALUE, VECTOR, WIDTH};
use order::vector::{is_zero, merge};
use register::home::cut_vector;
use shelf::show::settle;

// The words that each bearing is answered with.
const TOLD_WORDS: usize = 8;

// A vector's other-depot entries become the larger of themselves and those of a shelf's stable vector.
fn gather_one(book: &[u32], n: usize, d: Depot, s: Shelf, vector: &mut [u32])
    requires { (length book.now ≡ book_words) × (n ≤ most_depots) × (d.0 < most_depots) × (s.0 < most_shelves) × (length vector.old ≡ most_depots) }
    ensures { vector.new ≡ merged_at n d.0 (stable book.now d.0 s.0) 0 vector.old }
{
    let at = stable_at(d, s);
    let end = at + MOST_DEPOTS;
    merge(vector, 0, &book[at..end], n, d.index());
}

// The same with every shelf.
pub fn gather(book: &[u32], n: usize, p: usize, d: Depot, vector: &mut [u32])
    requires { (length book.now ≡ book_words) × (n ≤ most_depots) × (p ≤ most_shelves) × (d.0 < most_depots) × (length vector.old ≡ most_depots) }
    ensures { vector.new ≡ gathered_from n p d.0 book.now vector.old }
{
    for s in 0..p {
        gather_one(book, n, d, Shelf::nth(s, p), vector);
    }
}

// Every shelf of a depot is raised with what is offered, and shown.
pub fn settle_all(book: &mut [u32], n: usize, p: usize, d: Depot, offered: &[u32])
    requires { (length book.old ≡ book_words) × (length offered.now ≡ most_depots) × ((s : ℕ) → s < p → Ready n d.0 s book.old) }
    ensures { book.new ≡ settled_all n p d.0 (vector_in offered.now) book.old }
{
    for s in 0..p {
        settle(book, n, d, Shelf::nth(s, p), offered);
    }
}

// What is told of a stored record, as eight words.
fn told_words(version: &[u32], n: usize) -> [u32; 8]
    requires { (length version.now ≡ record_words) × (n ≤ most_depots) }
    ensures { result ≡ told_words (told n version.now) }
{
    let v = cut_vector(&version[VECTOR..RECORD_WORDS], n);
    if is_zero(&version[VECTOR..RECORD_WORDS], n) {
        return [0, 0, 0, 0, v[0], v[1], v[2], v[3]];
    }
    [
        1,
        version[VALUE],
        version[DIAMETER],
        version[WIDTH],
        v[0],
        v[1],
        v[2],
        v[3],
    ]
}

// What is told of a bearing at a depot stands from a place on.
fn tell_one(book: &[u32], n: usize, d: Depot, k: Bearing, words: &mut [u32], at: usize)
    requires { (length book.now ≡ book_words) × (n ≤ most_depots) × (d.0 < most_depots) × (k.0 < bearing_room) × (at + 8 ≤ length words.old) }
    ensures { words.new ≡ put words.old at (told_words (told n (stored book.now d.0 k.0))) }
{
    let from = stored_at(d, k);
    let end = from + RECORD_WORDS;
    let telling = told_words(&book[from..end], n);
    write_words(words, at, &telling);
}

// What is told of every bearing of a list, in list order, in room that was 0.
pub fn tell_all(book: &[u32], n: Counts, d: Depot, bearings: &[u32], words: &mut [u32])
    requires { (length book.now ≡ book_words) × (n.depots ≤ most_depots) × (n.bearings ≤ bearing_room) × (d.0 < most_depots) × (is_list bearings.now ≡ true)
        × (all_below n.bearings bearings.now ≡ true) × (words.old ≡ replicate 64 0) }
    ensures { words.new ≡ page_words 8 (map (λ k. told n.depots (stored book.now d.0 k)) bearings.now) }
{
    for i in 0..bearings.len() {
        let k = bearing_at(bearings, i, n.bearings);
        tell_one(book, n.depots, d, k, words, TOLD_WORDS * i);
    }
}

// A crew's vector becomes the entrywise maximum with that of a bearing's stored version at a depot.
fn merge_one(book: &mut [u32], n: usize, c: Crew, d: Depot, k: Bearing)
    requires { (length book.old ≡ book_words) × (n ≤ most_depots) × (c.0 < most_crews) × (d.0 < most_depots) × (k.0 < bearing_room) }
    ensures { book.new ≡ merged_at n n (vector_of (stored book.old d.0 k.0)) (crew_at c.0) book.old }
{
    let at = stored_at(d, k);
    let vector = at + VECTOR;
    let end = at + RECORD_WORDS;
    let found = cut_vector(&book[vector..end], n);
    merge(book, crew_at(c), &found, n, n);
}

// The same with every bearing of a list.
pub fn merge_all(book: &mut [u32], n: Counts, c: Crew, d: Depot, bearings: &[u32])
    requires { (length book.old ≡ book_words) × (n.depots ≤ most_depots) × (n.bearings ≤ bearing_room) × (c.0 < most_crews) × (d.0 < most_depots)
        × (all_below n.bearings bearings.now ≡ true) }
    ensures { book.new ≡ merged_all n.depots c.0 d.0 bearings.now book.old }
{
    for i in 0..bearings.len() {
        let bearing = bearing_at(bearings, i, n.bearings);
        merge_one(book, n.depots, c, d, bearing);
    }
}
