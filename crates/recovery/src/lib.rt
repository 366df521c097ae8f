// Recovery: the records of a journal are replayed one after the other. docs/JOURNAL.md tells what comes of them. `recover` asks nothing of its caller.
#![tactic(auto)]

ghost use Rattle.std.specs.Prelude.{◌≡◌, ◌+◌, ◌≤◌, length, take, drop};
ghost use Rattle.book.specs.Words.{put};
ghost use Rattle.replayer.specs.Turn.{most_numbers};
ghost use Rattle.recovery.specs.Promises.{Recovery};

use replayer::{MOST_NUMBERS, next_record};

// How many records were done, how many bytes they have, and how recovery ended: 0 behind a whole record, CUT inside one, BAD RECORD at a byte that is no kind, or the number with
// which the next record's call is refused.
#[derive(Clone, Copy)]
pub struct Recovered {
    pub done: usize,
    pub bytes: usize,
    pub end: u32,
}

// Record after record is done, as long as there are bytes and calls are done.
fn replay_all(book: &mut [u32], bytes: &[u8], numbers: &mut [u32]) -> Recovered
    requires { most_numbers ≤ length numbers.old }
    ensures { Recovery book.old bytes.now result book.new }
{
    let mut at = 0;
    let mut done = 0;
    while at < bytes.len() {
        let next = next_record(book, &bytes[at..], numbers);
        if next.end != 0 {
            return Recovered {
                done: done,
                bytes: at,
                end: next.end,
            };
        }
        at += next.size;
        done += 1;
    }
    Recovered {
        done: done,
        bytes: at,
        end: 0,
    }
}

// The book becomes that after the records that the bytes begin with. Any book and any bytes are taken. Where more bytes come, the next call gets those behind the ones that
// count, and the new ones behind them.
pub fn recover(book: &mut [u32], bytes: &[u8]) -> Recovered
    ensures { Recovery book.old bytes.now result book.new }
{
    let mut numbers = [0u32; MOST_NUMBERS];
    replay_all(book, bytes, &mut numbers)
}

// The first `filled` bytes of a buffer are recovered, and those behind the ones that count are brought to its front.
pub fn recover_buffer(book: &mut [u32], buffer: &mut [u8], filled: usize) -> Recovered
    requires { filled ≤ length buffer.old }
    ensures recovery { Recovery book.old (take filled buffer.old) result book.new }
    ensures buffer_after { buffer.new ≡ put buffer.old 0 (drop result.bytes (take filled buffer.old)) }
{
    let told = recover(book, &buffer[..filled]);
    buffer.copy_within(told.bytes..filled, 0);
    told
}
