// Who has it, in numbers: asks `who_has`, puts the mask and the count into a buffer and gives the answer's number. A buffer that is too short is refused first
// of all.
#![tactic(auto)]

ghost use Rattle.std.specs.Prelude.{◌≡◌};
ghost use Rattle.room.specs.Room.{no_room, in_room};
ghost use Rattle.who.specs.Who.{who_told};
ghost use Rattle.holders.specs.Told.{who_words, told_number, told_out};

use book::words::write_words;
use paper::number::number_of;
use room::NO_ROOM;
use who::{Holders, who_has};

// The words that the answer takes.
const WHO_WORDS: usize = 2;

// Which depots store a depot's present version of a bearing or a greater one, and how many they are.
pub fn tell_who(book: &[u32], depot: u32, bearing: u32, out: &mut [u32]) -> u32
    ensures value { result ≡ in_room who_words out.old (told_number (who_told book.now depot bearing)) no_room }
    ensures out_after { out.new ≡ in_room who_words out.old (told_out (who_told book.now depot bearing) out.old) out.old }
{
    if out.len() < WHO_WORDS {
        return NO_ROOM;
    }
    match who_has(book, depot, bearing) {
        Err(refusal) => number_of(refusal),
        Ok(Holders { mask, count }) => {
            let words = [mask, count];
            write_words(out, 0, &words);
            0
        }
    }
}
