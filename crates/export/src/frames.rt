// Frames for the radio link, as C calls their writer and reader.
ghost use Rattle.frame_told.specs.Told.{WrittenTold, ReadTold};

use frame_told::{read_told, write_told};

#[unsafe(no_mangle)]
pub extern "C" fn depot_write_frame(
    book: &[u32],
    depot: u32,
    shelf: u32,
    from: u32,
    count: u32,
    serial: u16,
    frame: &mut [u8],
    out: &mut [u32],
) -> u32
    ensures { WrittenTold book.now depot shelf from count serial frame.old out.old result frame.new out.new }
{
    write_told(book, depot, shelf, from, count, serial, frame, out)
}

#[unsafe(no_mangle)]
pub extern "C" fn depot_read_frame(
    book: &[u32],
    depot: u32,
    shelf: u32,
    from: u32,
    expected: u16,
    frame: &[u8],
    messages: &mut [u32],
    out: &mut [u32],
) -> u32
    ensures { ReadTold book.now depot shelf from expected frame.now messages.old out.old result messages.new out.new }
{
    read_told(book, depot, shelf, from, expected, frame, messages, out)
}
