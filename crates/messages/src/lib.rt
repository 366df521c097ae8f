// Messages and links: whether a message is one that a link may carry, and whether the head and all messages of a link are fit.
#![tactic(auto)]

ghost use Rattle.std.specs.Prelude.{◌≡◌, ◌+◌, ◌≤◌, ◌<◌, length};
ghost use Rattle.loops.specs.Loops.{every};
ghost use Rattle.order.specs.Record.{most_depots};
ghost use Rattle.book.specs.Layout.{book_words, slot_words, link_room, links, slot};
ghost use Rattle.fit.specs.Fit.{copy_fit, message_fit, head_fit, messages_fit, link_fit};

use book::layout::{BEAT, COPY, END, LINK_ROOM, Link, SLOT_RECORD, SLOT_STAMP, SLOT_WORDS};
use book::numbers::{Depot, Shelf};
use book::parts::{Counts, held_of, taken_of};
use versions::version::carried_fits;

// Whether a message is a copy that the link of a shelf out of a depot may carry.
fn copy_fits(message: &[u32], n: Counts, s: Shelf, from: Depot) -> bool
    requires { (length message.now ≡ slot_words) × (n.depots ≤ most_depots) × (0 < n.shelves) }
    ensures { result ≡ copy_fit n s.0 from.0 message.now }
{
    message[0] == COPY && carried_fits(&message[SLOT_RECORD..SLOT_WORDS], n, s, from)
}

// Whether a message is a heartbeat in range or such a copy.
pub fn message_fits(message: &[u32], n: Counts, s: Shelf, from: Depot) -> bool
    requires { (length message.now ≡ slot_words) × (n.depots ≤ most_depots) × (0 < n.shelves) }
    ensures { result ≡ message_fit n s.0 from.0 message.now }
{
    match message[0] {
        BEAT => message[SLOT_STAMP] <= END,
        COPY => carried_fits(&message[SLOT_RECORD..SLOT_WORDS], n, s, from),
        _ => false,
    }
}

// The words of slot i of a link.
fn slot_of(book: &[u32], q: Link, i: usize) -> &[u32]
    requires { (length book.now ≡ book_words) × (q.0 < links) × (i < link_room) }
    ensures { (result.now ≡ slot book.now q.0 i) × (length result.now ≡ slot_words) }
{
    let at = q.slot_at(i);
    &book[at..at + SLOT_WORDS]
}

// Whether the first `count` messages of a link are such copies.
fn copies_fit(book: &[u32], n: Counts, s: Shelf, from: Depot, q: Link, count: usize) -> bool
    requires { (length book.now ≡ book_words) × (n.depots ≤ most_depots) × (0 < n.shelves) × (q.0 < links) × (count ≤ link_room) }
    ensures { result ≡ every count (λ i. copy_fit n s.0 from.0 (slot book.now q.0 i)) }
{
    (0..count).all(|i| copy_fits(slot_of(book, q, i), n, s, from))
}

// Whether the `count` messages after the first `taken` ones are fit.
pub fn waiting_fit(
    book: &[u32],
    n: Counts,
    s: Shelf,
    from: Depot,
    q: Link,
    taken: usize,
    count: usize,
) -> bool
    requires { (length book.now ≡ book_words) × (n.depots ≤ most_depots) × (0 < n.shelves) × (q.0 < links) × (taken + count ≤ link_room) }
    ensures { result ≡ every count (λ i. message_fit n s.0 from.0 (slot book.now q.0 (taken + i))) }
{
    (0..count).all(|i| message_fits(slot_of(book, q, taken + i), n, s, from))
}

// Whether the head of a link is fit.
#[tactic(auto, unfolding(fit::specs::Fit::head_fit))]
pub fn head_fits(book: &[u32], q: Link) -> bool
    requires { (length book.now ≡ book_words) × (q.0 < links) }
    ensures { result ≡ head_fit book.now q.0 }
{
    let messages = held_of(book, q);
    messages <= LINK_ROOM && taken_of(book, q) <= messages
}

// Whether the messages of a link are fit, `count` of them, the first `taken` of which are taken.
pub fn messages_fit(
    book: &[u32],
    n: Counts,
    s: Shelf,
    from: Depot,
    q: Link,
    taken: usize,
    count: usize,
) -> bool
    requires { (length book.now ≡ book_words) × (n.depots ≤ most_depots) × (0 < n.shelves) × (q.0 < links) × (taken ≤ count) × (count ≤ link_room) }
    ensures { result ≡ messages_fit n book.now s.0 from.0 q.0 taken count }
{
    copies_fit(book, n, s, from, q, taken)
        && (taken == count || waiting_fit(book, n, s, from, q, taken, count - taken))
}

// Whether the link of a shelf out of a depot is fit.
pub fn link_fits(book: &[u32], n: Counts, s: Shelf, from: Depot, q: Link) -> bool
    requires { (length book.now ≡ book_words) × (n.depots ≤ most_depots) × (0 < n.shelves) × (q.0 < links) }
    ensures { result ≡ link_fit n book.now s.0 from.0 q.0 }
{
    let count = held_of(book, q);
    let taken = taken_of(book, q);
    if LINK_ROOM < count || count < taken {
        return false;
    }
    count == 0 || messages_fit(book, n, s, from, q, taken, count)
}
