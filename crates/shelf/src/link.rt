// A link's messages: closing up where some have left it.
ghost use Rattle.std.specs.Prelude.{◌≡◌, ◌+◌, ◌≤◌, ◌<◌, length};
ghost use Rattle.book.specs.Layout.{book_words, links, link_room};
ghost use Rattle.shelf.specs.Show.{closed_up};

use book::layout::{Link, SLOT_WORDS};
use book::words::{clear_words, copy_words};

// Of a link of `held` messages the `gone` ones from slot `at` on are gone: those behind move down, and the slots that become free are 0.
pub fn close_up(book: &mut [u32], q: Link, at: usize, gone: usize, held: usize)
    requires { (length book.old ≡ book_words) × (q.0 < links) × (at + gone ≤ held) × (held ≤ link_room) }
    ensures { book.new ≡ closed_up q.0 at gone held book.old }
{
    if gone == 0 {
        return;
    }
    let behind = at + gone;
    copy_words(
        book,
        q.slot_at(behind),
        q.slot_at(at),
        SLOT_WORDS * (held - behind),
    );
    clear_words(book, q.slot_at(held - gone), SLOT_WORDS * gone);
}
