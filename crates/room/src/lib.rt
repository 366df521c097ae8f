// A caller's buffer for an answer: the number that refuses one that is too short, and the words of an answer at its start.
#![tactic(auto)]

ghost use Rattle.std.specs.Prelude.{◌≡◌};
ghost use Rattle.room.specs.Room.{filled};

use book::words::write_words;

// No room: a buffer is too short for the answer. One number for all parts, outside the paper's table.
pub const NO_ROOM: u32 = 100;

// The words stand at the start of `out`, where it has room for them all.
pub fn fill(out: &mut [u32], words: &[u32])
    ensures { out.new ≡ filled words.now out.old }
{
    if words.len() <= out.len() {
        write_words(out, 0, words);
    }
}
