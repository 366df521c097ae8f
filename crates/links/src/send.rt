// Room on the links out of a shelf, and sending.
ghost use Rattle.std.specs.Prelude.{◌≡◌, ◌||◌, ◌≤◌, ◌<◌, eqb, ltb, length};
ghost use Rattle.order.specs.Record.{most_depots};
ghost use Rattle.book.specs.Layout.{book_words, slot_words, link_room, most_shelves, link_of, held};
ghost use Rattle.shelf.specs.Asks.{Free};
ghost use Rattle.links.specs.Send.{roomy, sent_to, sent};

use book::layout::{LINK_ROOM, Link};
use book::numbers::{Depot, Numbered, Shelf};
use book::parts::{held_of, set_clock};
use book::words::write_words;
use shelf::show::word;

// Whether the link of a shelf from one depot to another has room; a depot has no link to itself.
fn has_room(book: &[u32], d: Depot, s: Shelf, to: Depot) -> bool
    requires { (length book.now ≡ book_words) × (d.0 < most_depots) × (s.0 < most_shelves) × (to.0 < most_depots) }
    ensures { result ≡ eqb to.0 d.0 || ltb (held book.now (link_of s.0 d.0 to.0)) link_room }
{
    to == d || held_of(book, Link::between(s, d, to)) < LINK_ROOM
}

// Whether every link out of a shelf has room for one more message.
pub fn is_roomy(book: &[u32], n: usize, d: Depot, s: Shelf) -> bool
    requires { (length book.now ≡ book_words) × (n ≤ most_depots) × (d.0 < most_depots) × (s.0 < most_shelves) }
    ensures { result ≡ roomy n d.0 s.0 book.now }
{
    (0..n).all(|to| has_room(book, d, s, Depot::nth(to, n)))
}

// The message goes on the link to a depot, unless that depot is this one.
fn send_to(book: &mut [u32], d: Depot, s: Shelf, message: &[u32], to: Depot)
    requires { (length book.old ≡ book_words) × (length message.now ≡ slot_words) × (d.0 < most_depots) × (s.0 < most_shelves)
        × (to.0 < most_depots) × ((to.0 ≡ d.0 → ⊥) → held book.old (link_of s.0 d.0 to.0) < link_room) }
    ensures { book.new ≡ sent_to d.0 s.0 message.now to.0 book.old }
{
    if to == d {
        return;
    }
    let q = Link::between(s, d, to);
    let held = held_of(book, q);
    write_words(book, q.slot_at(held), message);
    book[q.held_at()] = word(held + 1);
}

// The clock of a shelf stands at the stamp, and the message goes on every link out.
pub fn send(book: &mut [u32], n: usize, d: Depot, s: Shelf, stamp: u32, message: &[u32])
    requires { (length book.old ≡ book_words) × (length message.now ≡ slot_words) × Free n d.0 s.0 book.old }
    ensures { book.new ≡ sent n d.0 s.0 stamp message.now book.old }
{
    set_clock(book, d, s, stamp);
    for to in 0..n {
        send_to(book, d, s, message, Depot::nth(to, n));
    }
}
