// A call made together with its record, and recovery, as C calls them.
ghost use Rattle.std.specs.Prelude.{◌≡◌};
ghost use Rattle.recorder_told.specs.Told as recorder;
ghost use Rattle.recovery_told.specs.Told as recovery;

use recorder_told::tell_recorded;
use recovery_told::tell_recovered;

#[unsafe(no_mangle)]
pub extern "C" fn depot_recorded(
    book: &mut [u32],
    kind: u32,
    numbers: &[u32],
    bytes: &mut [u8],
    out: &mut [u32],
) -> u32
    ensures { recorder.left result book.new bytes.new out.new
        ≡ recorder.left_by kind numbers.now book.old bytes.old out.old }
{
    tell_recorded(book, kind, numbers, bytes, out)
}

#[unsafe(no_mangle)]
pub extern "C" fn depot_recover(book: &mut [u32], bytes: &[u8], out: &mut [u64]) -> u32
    ensures { recovery.left result book.new out.new ≡ recovery.left_by bytes.now book.old out.old }
{
    tell_recovered(book, bytes, out)
}
