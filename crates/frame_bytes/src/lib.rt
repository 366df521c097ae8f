// The bytes of a frame: how many they are, and each where it stands.
#![tactic(auto)]

ghost use Rattle.std.specs.Prelude.{◌≡◌, ◌+◌, ◌*◌, ◌≤◌, ◌<◌, length};
ghost use Rattle.order.specs.Record.{most_depots};
ghost use Rattle.book.specs.Words.{put};
ghost use Rattle.book.specs.Layout.{book_words, links, link_room, slot_words, kind_of, slot};
ghost use Rattle.wire.specs.Wire.{word_bytes, joined};
ghost use Rattle.frame.specs.Frame.{body_at, size_of, sent_word, message_bytes, place_of, head_of, offsets_of, messages_of, encode_frame};

use book::layout::{BEAT, COPY, Link, SLOT_STAMP, SLOT_WORDS};
use frame::{FRONT, OFFSET, ReadyRoute, size_of, whom_of};
use wire::{low, put_half, put_word};

// Words of a copy that are sent before its vector: value, diameter, width.
const PLAIN: usize = 3;

// Word i of those of a copy that are sent as words.
fn sent_word(m: &[u32], i: usize) -> u32
    requires { (length m.now ≡ slot_words) × (i < 3 + most_depots) }
    ensures { result ≡ sent_word m.now i }
{
    if i < PLAIN {
        return m[2 + i];
    }
    m[3 + i]
}

// These words stand from `at` on.
fn put_words(out: &mut [u8], at: usize, m: &[u32], depots: usize)
    requires { (length m.now ≡ slot_words) × (depots ≤ most_depots) × (at + 12 + 4 * depots ≤ length out.old) }
    ensures { out.new ≡ put out.old at (joined (3 + depots) (λ i. word_bytes (sent_word m.now i))) }
{
    for i in 0..PLAIN + depots {
        put_word(out, at + 4 * i, sent_word(m, i));
    }
}

// The bytes of a message stand from `at` on.
fn put_message(out: &mut [u8], at: usize, m: &[u32], depots: usize)
    requires { (length m.now ≡ slot_words) × (depots ≤ most_depots) × (at + size_of depots (kind_of m.now) ≤ length out.old) }
    ensures { out.new ≡ put out.old at (message_bytes depots m.now) }
{
    let kind = m[0];
    if kind == BEAT {
        out[at] = low(BEAT);
        put_word(out, at + 1, m[SLOT_STAMP]);
        return;
    }
    if kind == COPY {
        out[at] = low(COPY);
        out[at + 1] = low(m[1]);
        put_words(out, at + 2, m, depots);
    }
}

// How many bytes the frame of the `count` messages after the first `taken` ones has.
pub fn size_of_frame(book: &[u32], q: Link, taken: usize, count: usize, depots: usize) -> usize
    requires { (length book.now ≡ book_words) × (q.0 < links) × (taken + count ≤ link_room) × (depots ≤ most_depots) }
    ensures { result ≡ place_of depots count (λ i. slot book.now q.0 (taken + i)) count }
{
    let mut at = FRONT + OFFSET * count;
    for i in 0..count {
        at += size_of(depots, book[q.slot_at(taken + i)]);
    }
    at
}

// Their offsets stand behind the first four bytes.
fn put_offsets(out: &mut [u8], book: &[u32], q: Link, taken: usize, count: usize, depots: usize)
    requires { (length book.now ≡ book_words) × (q.0 < links) × (taken + count ≤ link_room) × (depots ≤ most_depots) × (body_at count ≤ length out.old) }
    ensures { out.new ≡ put out.old 4 (offsets_of depots count (λ i. slot book.now q.0 (taken + i))) }
{
    let mut at = FRONT + OFFSET * count;
    for i in 0..count {
        put_half(out, FRONT + OFFSET * i, at);
        at += size_of(depots, book[q.slot_at(taken + i)]);
    }
}

// The messages stand behind the offsets.
fn put_messages(out: &mut [u8], book: &[u32], q: Link, taken: usize, count: usize, depots: usize)
    requires { (length book.now ≡ book_words) × (q.0 < links) × (taken + count ≤ link_room) × (depots ≤ most_depots)
        × (place_of depots count (λ i. slot book.now q.0 (taken + i)) count ≤ length out.old) }
    ensures { out.new ≡ put out.old (body_at count) (messages_of depots count (λ i. slot book.now q.0 (taken + i))) }
{
    let mut at = FRONT + OFFSET * count;
    for i in 0..count {
        let from = q.slot_at(taken + i);
        let end = from + SLOT_WORDS;
        put_message(out, at, &book[from..end], depots);
        at += size_of(depots, book[from]);
    }
}

// For whom it is, how many messages, and the serial stand first.
fn put_head(out: &mut [u8], way: ReadyRoute, count: usize, serial: u16)
    requires { (count ≤ link_room) × (4 ≤ length out.old) }
    ensures { out.new ≡ put out.old 0 (head_of way.route serial count) }
{
    out[0] = whom_of(way);
    out[1] = count as u8;
    put_half(out, OFFSET, serial as usize);
}

// The frame of the `count` messages after the first `taken` ones stands in the buffer.
pub fn put_frame(
    out: &mut [u8],
    book: &[u32],
    way: ReadyRoute,
    q: Link,
    taken: usize,
    count: usize,
    serial: u16,
)
    requires { (length book.now ≡ book_words) × (q.0 < links) × (taken + count ≤ link_room)
        × (place_of way.route.counts.depots count (λ i. slot book.now q.0 (taken + i)) count ≤ length out.old) }
    ensures { out.new ≡ put out.old 0 (encode_frame way.route serial count (λ i. slot book.now q.0 (taken + i))) }
{
    let depots = way.route.counts.depots;
    put_head(out, way, count, serial);
    put_offsets(out, book, q, taken, count, depots);
    put_messages(out, book, q, taken, count, depots);
}
