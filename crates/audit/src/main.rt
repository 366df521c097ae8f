// The auditor as a program: the lines of a history from standard input, one answer line to standard output.
#![tactic(auto)]

ghost use Rattle.std.specs.Prelude.{◌≡◌, ℕ, take, IfOk, OnErr};
ghost use Rattle.history.specs.Stream.{Fits, Seen, state, through};

use history::stream::{HISTORY_WORDS, KEPT_BYTES, Place, feed};
use report::conclude::conclude;
use report::say::ANSWER_ROOM;
use std::io;
use std::io::Read;

// How many bytes are asked of the input at a time.
const PIECE_BYTES: usize = 4096;

// What a piece of the input leaves: how many bytes it has, how many bytes of the line so far are kept, and how many lines have ended.
#[derive(Clone, Copy)]
struct Left {
    count: usize,
    kept: usize,
    lines: usize,
}

// What has arrived is read. No bytes are the end of the input. Where it cannot be read, what was read before stays as it was.
fn read_piece<R: Read>(
    from: &mut R,
    words: &mut [u32],
    line: &mut [u8],
    kept: usize,
    lines: usize,
    input: &mut [u8],
) -> io::Result<Left>
    requires { Fits words.old line.old kept lines }
    ensures fits { IfOk result (λ left. Fits words.new line.new left.kept left.lines) }
    ensures lines_after { IfOk result (λ left. state words.new line.new left.kept left.lines ≡ through (state words.old line.old kept lines) (take left.count input.new)) }
    ensures words_stay { OnErr result (words.new ≡ words.old) }
    ensures line_stays { OnErr result (line.new ≡ line.old) }
{
    let n = from.read(input)?;
    let place = feed(words, line, kept, lines, &input[..n]);
    Ok(Left {
        count: n,
        kept: place.kept,
        lines: place.lines,
    })
}

// All that arrives. Where it cannot be read to its end, what was read stands in the buffers.
fn read_all<R: Read>(
    from: &mut R,
    words: &mut [u32],
    line: &mut [u8],
    input: &mut [u8],
) -> io::Result<Place>
    requires { Seen words.old line.old 0 0 }
    ensures seen { IfOk result (λ place. Seen words.new line.new place.kept place.lines) }
    ensures seen_so_far { OnErr result ((kept : ℕ) × (lines : ℕ) × Seen words.new line.new kept lines) }
{
    let mut kept = 0;
    let mut lines = 0;
    'pieces: for _ in 0..u64::MAX {
        let left = read_piece(from, words, line, kept, lines, input)?;
        kept = left.kept;
        lines = left.lines;
        if left.count == 0 {
            break 'pieces;
        }
    }
    Ok(Place { kept, lines })
}

fn main(rt: HostRuntime) -> io::Result<()> {
    let mut words = [0u32; HISTORY_WORDS];
    let mut line = [0u8; KEPT_BYTES];
    let mut input = [0u8; PIECE_BYTES];
    let mut out = [0u8; ANSWER_ROOM];
    let place = read_all(&mut rt.stdin(), &mut words, &mut line, &mut input)?;
    let end = conclude(&mut words, &line, place.kept, place.lines, &mut out);
    rt.write_all(&out[..end])
}
