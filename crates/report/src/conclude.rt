// From what was read to the answer's line.
ghost use Rattle.std.specs.Prelude.{◌≤◌, length};
ghost use Rattle.history.specs.Stream.{Seen};
ghost use Rattle.report.specs.Report.{answer_room, Concluded};

use crate::report::report;
use crate::say::say;
use history::stream::finish;

// The end of the input: the answer's line stands in the output, from its beginning on, and its end is handed back.
pub fn conclude(words: &mut [u32], line: &[u8], kept: usize, lines: usize, out: &mut [u8]) -> usize
    requires { Seen words.old line.now kept lines × (answer_room ≤ length out.old) }
    ensures { Concluded out.new result }
{
    let total = finish(words, line, kept, lines);
    let said = report(words, total);
    say(out, said)
}
