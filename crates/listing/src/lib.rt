// What a list tells in numbers: its number comes back, and what it tells of each bearing stands in a buffer. A buffer that is too short is refused first of all, before the
// book is looked at.
#![tactic(auto)]

ghost use Rattle.std.specs.Prelude.{◌≡◌};
ghost use Rattle.paper.specs.Calls.{list};
ghost use Rattle.upkeep.specs.Requests.{call, number_at, reply_to, book_after};
ghost use Rattle.room.specs.Room.{no_room, in_room, filled};
ghost use Rattle.telling.specs.Told.{words_of};
ghost use Rattle.listing.specs.Told.{list_words};

use page::list;
use paper::number::number_of;
use room::{NO_ROOM, fill};

// The words that the answer of a list takes: eight for each of eight bearings.
const LIST_WORDS: usize = 64;

// A list is done; what it tells stands in `out`, 0 in unused room, and its number comes back. Without room for it the list is refused.
pub fn tell_list(book: &mut [u32], crew: u32, bearings: &[u32], out: &mut [u32]) -> u32
    ensures value { result ≡ in_room list_words out.old (number_at book.old (call (list crew bearings.now))) no_room }
    ensures book_after { book.new ≡ in_room list_words out.old (book_after book.old (call (list crew bearings.now))) book.old }
    ensures out_after { out.new
        ≡ in_room list_words out.old (filled (words_of (reply_to book.old (call (list crew bearings.now)))) out.old) out.old }
{
    if out.len() < LIST_WORDS {
        return NO_ROOM;
    }
    match list(book, crew, bearings) {
        Ok(page) => {
            let words = page.words;
            fill(out, &words);
            0
        }
        Err(r) => number_of(r),
    }
}
