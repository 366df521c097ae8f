// The writer and the reader of frames for a caller who gets numbers: the number of the answer comes back, and where it is 0, what is told stands in a word.
#![tactic(auto)]

ghost use Rattle.std.specs.Prelude.{◌≡◌};
ghost use Rattle.frame.specs.Promises.{frame_number};
ghost use Rattle.frame_told.specs.Told.{WrittenTold, ReadTold};

use frame::FrameRefusal;
use frame_reader::read_frame;
use frame_writer::write_frame;
use paper::number::number_of;

// The number of a buffer too short.
pub use room::NO_ROOM;

// The words that what is told takes.
pub const TOLD_WORDS: usize = 1;

// The number of a refusal.
#[tactic(auto, unfolding(frame::specs::Promises::frame_number))]
pub fn frame_number(refusal: FrameRefusal) -> u32
    ensures { result ≡ frame_number refusal }
{
    match refusal {
        FrameRefusal::Link(r) => number_of(r),
        FrameRefusal::NoRoom => NO_ROOM,
        FrameRefusal::BadCount => 101,
        FrameRefusal::BadFrame => 102,
        FrameRefusal::Old => 103,
        FrameRefusal::Gap => 104,
    }
}

// NO ROOM where nothing can be told; else as `write_frame`, and how many bytes the frame has.
pub fn write_told(
    book: &[u32],
    depot: u32,
    shelf: u32,
    from: u32,
    count: u32,
    serial: u16,
    out: &mut [u8],
    told: &mut [u32],
) -> u32
    ensures { WrittenTold book.now depot shelf from count serial out.old told.old result out.new told.new }
{
    if told.len() < TOLD_WORDS {
        return NO_ROOM;
    }
    match write_frame(book, depot, shelf, from, count, serial, out) {
        Err(refusal) => frame_number(refusal),
        Ok(size) => {
            told[0] = size as u32;
            0
        }
    }
}

// NO ROOM where nothing can be told; else as `read_frame`, and how many messages it handed out.
pub fn read_told(
    book: &[u32],
    depot: u32,
    shelf: u32,
    from: u32,
    expected: u16,
    frame: &[u8],
    out: &mut [u32],
    told: &mut [u32],
) -> u32
    ensures { ReadTold book.now depot shelf from expected frame.now out.old told.old result out.new told.new }
{
    if told.len() < TOLD_WORDS {
        return NO_ROOM;
    }
    match read_frame(book, depot, shelf, from, expected, frame, out) {
        Err(refusal) => frame_number(refusal),
        Ok(count) => {
            told[0] = count as u32;
            0
        }
    }
}
