// Recovery for a caller who gets numbers: how it ended comes back, and how many records were done and how many bytes they have stand in a buffer. A buffer that is too short is refused
// first of all.
#![tactic(auto)]

ghost use Rattle.std.specs.Prelude.{◌≡◌};
ghost use Rattle.recovery_told.specs.Told.{left, left_by};

use recovery::recover;
use room::NO_ROOM;

// The counts that are told.
const RECOVERED_COUNTS: usize = 2;

// The records that the bytes begin with are done on the book; how many they are and how many bytes they have stand at the start of `out`. Without room for that nothing is done.
pub fn tell_recovered(book: &mut [u32], bytes: &[u8], out: &mut [u64]) -> u32
    ensures { left result book.new out.new ≡ left_by bytes.now book.old out.old }
{
    if out.len() < RECOVERED_COUNTS {
        return NO_ROOM;
    }
    let told = recover(book, bytes);
    out[0] = told.done as u64;
    out[1] = told.bytes as u64;
    told.end
}
