// A list of bearings read at one moment, as C calls it.
ghost use Rattle.std.specs.Prelude.{◌≡◌};
ghost use Rattle.paper.specs.Calls.{list};
ghost use Rattle.upkeep.specs.Requests.{call, number_at, reply_to, book_after};
ghost use Rattle.room.specs.Room.{no_room, in_room, filled};
ghost use Rattle.telling.specs.Told.{words_of};
ghost use Rattle.listing.specs.Told.{list_words};

use listing::tell_list;

#[unsafe(no_mangle)]
pub extern "C" fn depot_list(book: &mut [u32], crew: u32, bearings: &[u32], out: &mut [u32]) -> u32
    ensures value { result ≡ in_room list_words out.old (number_at book.old (call (list crew bearings.now))) no_room }
    ensures book_after { book.new ≡ in_room list_words out.old (book_after book.old (call (list crew bearings.now))) book.old }
    ensures out_after { out.new
        ≡ in_room list_words out.old (filled (words_of (reply_to book.old (call (list crew bearings.now)))) out.old) out.old }
{
    tell_list(book, crew, bearings, out)
}
