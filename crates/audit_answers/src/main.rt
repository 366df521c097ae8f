// A small history for each answer of the auditor, in the order of docs/AUDIT.md, and what decides between two answers. What is printed is kept in the
// file `stdout`.
#![tactic(auto)]

use history::stream::{HISTORY_WORDS, KEPT_BYTES, Place, feed};
use report::conclude::conclude;
use report::say::ANSWER_ROOM;
use std::io;

// What is said of a text, fed as many times over.
fn tell(rt: &impl Print, text: &[u8], times: u32) -> io::Result<()> {
    let mut words = [0u32; HISTORY_WORDS];
    let mut line = [0u8; KEPT_BYTES];
    let mut out = [0u8; ANSWER_ROOM];
    let mut place = Place { kept: 0, lines: 0 };
    'times: for _ in 0..times {
        place = feed(&mut words, &mut line, place.kept, place.lines, text);
    }
    let end = conclude(&mut words, &line, place.kept, place.lines, &mut out);
    rt.write_all(&out[..end])
}

// causal · bad line 1 · refused 0 · circle 0 · low 1 · too many.
fn each_answer(rt: &impl Print) -> io::Result<()> {
    tell(rt, b"W 0 0 20 1 1 0 1 0 0 0\nR 1 0 20 1 1 0 1 0 0 0\n", 1)?;
    tell(rt, b"W 0 0 20 1 1 0 1 0 0 0\nhello\n", 1)?;
    tell(rt, b"R 0 0 20 1 1 0 1 0 0 0\n", 1)?;
    tell(rt, b"R 0 0 20 1 1 0 1 0 0 0\nW 0 0 20 1 1 0 1 0 0 0\n", 1)?;
    tell(rt, b"W 0 0 20 1 1 0 1 0 0 0\nR 0 0 -\n", 1)?;
    tell(rt, b"R 0 0 -\n", 257)
}

// How many lines: 256 are not too many; no input is causal, an empty line is bad, a last line counts without its line feed, and one of 120 bytes is bad.
fn each_end(rt: &impl Print) -> io::Result<()> {
    tell(rt, b"R 0 0 -\n", 256)?;
    tell(rt, b"", 1)?;
    tell(rt, b"\n", 1)?;
    tell(rt, b"W 0 0 20 1 1 0 1 0 0 0\nR 0 0 -", 1)?;
    tell(
        rt,
        b"W 4294967295 4294967295 4294967295 4294967295 4294967295 3 4294967295 4294967295 4294967295 4294967295\n",
        1,
    )?;
    tell(
        rt,
        b"W 0 0 20 1 1 0 1 0 0 0000000000000000000000000000000000000000000000000000000000000000000000000000000000000000000000000\n",
        1,
    )
}

// Refused: origin 4; stamp 0; two writes of one version, where the first counts; another value; another card. A bad line goes before, and a circle before a low read.
fn each_order(rt: &impl Print) -> io::Result<()> {
    tell(rt, b"W 0 0 20 1 1 4 1 0 0 0\n", 1)?;
    tell(rt, b"W 0 0 20 1 1 1 1 0 0 0\n", 1)?;
    tell(
        rt,
        b"R 2 0 -\nW 0 0 20 1 1 0 1 0 0 0\nW 1 0 30 1 1 0 1 0 0 0\n",
        1,
    )?;
    tell(rt, b"W 0 0 20 1 1 0 1 0 0 0\nR 1 0 21 1 1 0 1 0 0 0\n", 1)?;
    tell(rt, b"W 0 0 20 1 1 0 1 0 0 0\nR 1 0 20 1 2 0 1 0 0 0\n", 1)?;
    tell(rt, b"W 0 0 20 1 1 4 1 0 0 0\nW 0 0 20 1 1 0 1 0 0\n", 1)?;
    tell(
        rt,
        b"W 0 0 20 1 1 0 1 0 0 0\nR 0 0 -\nR 1 0 30 1 1 1 0 1 0 0\nW 1 0 30 1 1 1 0 1 0 0\n",
        1,
    )
}

fn main(rt: HostRuntime) -> io::Result<()> {
    each_answer(&rt)?;
    each_end(&rt)?;
    each_order(&rt)
}
