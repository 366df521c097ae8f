// The worked cases (a) to (i) of the paper's "Entries on both sides", and those of later requests, each run and compared. A script has lines of the desk, each with its answer after it.
#![tactic(auto)]

pub mod lists;

ghost use Rattle.std.specs.Prelude.{◌≡◌, ◌≤◌, length};
ghost use Rattle.book.specs.Layout.{book_words};
ghost use Rattle.reply.specs.Printed.{answer_room};

use crate::lists::case_p;
use book::layout::{BOOK_WORDS, clock_at, crew_at, stable_at};
use book::numbers::{Crew, Depot, Numbered, Shelf};
use book::parts::set_clock;
use paper::number::number_of;
use rehome::move_crew;
use reply::ANSWER_ROOM;
use script::{is_word, repeated, runs};
use std::io;
use who::{Holders, who_has};
use whole::is_fit;

// The clock of depot 0's shelf 0.
fn is_clock(book: &[u32], value: u32) -> bool {
    is_word(book, clock_at(Depot::nth(0, 2), Shelf::nth(0, 2)), value)
}

// The entry for depot 0 in the stable vector of depot 1's shelf 0.
fn is_stable(book: &[u32], value: u32) -> bool {
    is_word(book, stable_at(Depot::nth(1, 2), Shelf::nth(0, 2)), value)
}

// The vector of crew 1, with two depots.
fn is_vector(book: &[u32], first: u32, second: u32) -> bool {
    let at = crew_at(Crew::nth(1, 2));
    is_word(book, at, first) && is_word(book, at + 1, second)
}

// The listing, but for its last line.
fn listing(book: &mut [u32], out: &mut [u8]) -> bool
    requires { answer_room ≤ length out.old }
{
    let begun = runs(
        book,
        out,
        b"S 2 2 4 2 0 1\n0\nR 0 0\n0 - 0 0\nW 0 0 20 1065353216 1065353216\n0 1 C\nW 0 1 30 1065353216 1065353216\n8\n",
    );
    let sent = runs(
        book,
        out,
        b"K 0 1\n0\nW 0 1 30 1065353216 1065353216\n0 2 C\nT 1 0 0\n0\nF 1 0\n0\nR 1 0\n0 - 0 0\n",
    );
    let ended = runs(book, out, b"T 1 1 0\n0\nF 1 0\n0\n");
    begun && sent && ended
}

// (a) after the listing: the lowest stamp seen is 1, so bearing 1 with vector (2, 0) stays hidden.
fn case_a(book: &mut [u32], out: &mut [u8]) -> bool
    requires { answer_room ≤ length out.old }
{
    let listed = listing(book, out);
    let read = runs(book, out, b"R 1 0\n0 20 1065353216 1065353216 1 0\n");
    let hidden = runs(book, out, b"T 1 1 0\n0\nF 1 1\n0\nR 1 1\n0 - 0 0\n");
    listed && read && hidden
}

// (b) a tick of depot 0's shelf 0, taken, and it is shown.
fn case_b(book: &mut [u32], out: &mut [u8]) -> bool
    requires { answer_room ≤ length out.old }
{
    runs(
        book,
        out,
        b"K 0 0\n0\nT 1 0 0\n0\nF 1 1\n0\nR 1 1\n0 30 1065353216 1065353216 2 0\n",
    )
}

// (c) a read raises shelf 0's stable entry for depot 0 from 1 to 2.
fn case_c(book: &mut [u32], out: &mut [u8]) -> bool
    requires { answer_room ≤ length out.old }
{
    let before = is_stable(book, 1);
    let read = runs(book, out, b"R 1 0\n0 20 1065353216 1065353216 1 0\n");
    before && read && is_stable(book, 2)
}

// (d) a write then has stamp 1, vector (2, 1), and is current.
fn case_d(book: &mut [u32], out: &mut [u8]) -> bool
    requires { answer_room ≤ length out.old }
{
    let written = runs(book, out, b"W 1 0 44 1065353216 1065353216\n0 1 C\n");
    let vector = is_vector(book, 2, 1);
    let read = runs(book, out, b"R 1 0\n0 44 1065353216 1065353216 2 1\n");
    written && vector && read
}

// (e) with the listing's last read left out: vector (0, 1), superseded; 20 stays.
fn case_e(book: &mut [u32], out: &mut [u8]) -> bool
    requires { answer_room ≤ length out.old }
{
    let listed = listing(book, out);
    let written = runs(book, out, b"W 1 0 44 1065353216 1065353216\n0 1 S\n");
    let vector = is_vector(book, 0, 1);
    let read = runs(book, out, b"R 1 0\n0 20 1065353216 1065353216 1 0\n");
    listed && written && vector && read
}

// A round: every link is emptied by these takes, every shelf is refreshed, every shelf ticks.
fn round(book: &mut [u32], out: &mut [u8], takes: &[u8]) -> bool
    requires { answer_room ≤ length out.old }
{
    let taken = runs(book, out, takes);
    let shown = runs(book, out, b"F 0 0\n0\nF 0 1\n0\nF 1 0\n0\nF 1 1\n0\n");
    let ticked = runs(book, out, b"K 0 0\n0\nK 0 1\n0\nK 1 0\n0\nK 1 1\n0\n");
    taken && shown && ticked
}

// (f) two writes that know nothing of each other: after one round each depot reads its own still, after two both read 7.
fn case_f(book: &mut [u32], out: &mut [u8]) -> bool
    requires { answer_room ≤ length out.old }
{
    let written = runs(
        book,
        out,
        b"S 2 2 4 2 0 1\n0\nW 0 0 7 1065353216 1065353216\n0 1 C\nW 1 0 9 1065353216 1065353216\n0 1 C\n",
    );
    let first = round(
        book,
        out,
        b"T 0 0 1\n0\nT 0 0 1\n7\nT 0 1 1\n7\nT 1 0 0\n0\nT 1 0 0\n7\nT 1 1 0\n7\n",
    );
    let hidden = runs(
        book,
        out,
        b"R 0 0\n0 7 1065353216 1065353216 1 0\nR 1 0\n0 9 1065353216 1065353216 0 1\n",
    );
    let second = round(
        book,
        out,
        b"T 0 0 1\n0\nT 0 0 1\n7\nT 0 1 1\n0\nT 0 1 1\n7\nT 1 0 0\n0\nT 1 0 0\n7\nT 1 1 0\n0\nT 1 1 0\n7\n",
    );
    let read = runs(
        book,
        out,
        b"R 0 0\n0 7 1065353216 1065353216 1 0\nR 1 0\n0 7 1065353216 1065353216 1 0\n",
    );
    written && first && hidden && second && read
}

// (g) 16 ticks pass, the 17th is LINK FULL, clock still 16. One take, and the tick passes, clock 17.
fn case_g(book: &mut [u32], out: &mut [u8]) -> bool
    requires { answer_room ≤ length out.old }
{
    let fresh = runs(book, out, b"S 2 2 4 2 0 1\n0\n");
    let filled = repeated(book, out, b"K 0 0\n0\n", 16);
    let refused = runs(book, out, b"K 0 0\n9\n");
    let still = is_clock(book, 16);
    let passed = runs(book, out, b"T 1 0 0\n0\nK 0 0\n0\n");
    fresh && filled && refused && still && passed && is_clock(book, 17)
}

// (h) clock 2,147,483,646: a tick passes; the next is CLOCK AT END.
fn case_h(book: &mut [u32], out: &mut [u8]) -> bool
    requires { (length book.old ≡ book_words) × (answer_room ≤ length out.old) }
{
    let fresh = runs(book, out, b"S 2 2 4 2 0 1\n0\n");
    set_clock(book, Depot::nth(0, 2), Shelf::nth(0, 2), 2147483646);
    let fit = is_fit(book);
    let ended = runs(
        book,
        out,
        b"K 0 0\n0\nK 0 0\n10\nW 0 0 5 1065353216 1065353216\n10\n",
    );
    fresh && fit && ended && is_clock(book, 2147483647)
}

// (i) one depot: no links, never LINK FULL. Home entry equal to the clock: no WAIT.
fn case_i(book: &mut [u32], out: &mut [u8]) -> bool
    requires { answer_room ≤ length out.old }
{
    let fresh = runs(book, out, b"S 1 1 1 1 0\n0\n");
    let ticked = repeated(book, out, b"K 0 0\n0\n", 40);
    let written = runs(
        book,
        out,
        b"W 0 0 7 1065353216 1065353216\n0 41 C\nW 0 0 8 1065353216 1065353216\n0 42 C\nR 0 0\n0 8 1065353216 1065353216 42\n",
    );
    fresh && ticked && written
}

// (j) the last of 160 bearings, on four depots: written at depot 0, read at the others. 161 are BAD COUNTS, bearing 160 is BAD KEY.
fn case_j(book: &mut [u32], out: &mut [u8]) -> bool
    requires { answer_room ≤ length out.old }
{
    let written = runs(
        book,
        out,
        b"S 4 1 161 4 0 1 2 3\n11\nS 4 1 160 4 0 1 2 3\n0\nW 0 160 7 1065353216 1065353216\n4\nW 0 159 7 1065353216 1065353216\n0 1 C\n",
    );
    let carried = runs(
        book,
        out,
        b"T 1 0 0\n0\nT 2 0 0\n0\nT 3 0 0\n0\nF 1 0\n0\nF 2 0\n0\nF 3 0\n0\n",
    );
    let read = runs(
        book,
        out,
        b"R 1 159\n0 7 1065353216 1065353216 1 0 0 0\nR 2 159\n0 7 1065353216 1065353216 1 0 0 0\nR 3 159\n0 7 1065353216 1065353216 1 0 0 0\n",
    );
    written && carried && read
}

// The first depot writes a 7 with (1, 0), and the second a 9 with (0, 5).
fn uneven(book: &mut [u32], out: &mut [u8]) -> bool
    requires { answer_room ≤ length out.old }
{
    let fresh = runs(
        book,
        out,
        b"S 2 1 4 2 0 1\n0\nW 0 0 7 1065353216 1065353216\n0 1 C\n",
    );
    let ticked = repeated(book, out, b"K 1 0\n0\n", 4);
    let written = runs(book, out, b"W 1 0 9 1065353216 1065353216\n0 5 C\n");
    fresh && ticked && written
}

// (k) sums first: (0, 5) is greater than (1, 0), so both depots end with the second depot's 9.
fn case_k(book: &mut [u32], out: &mut [u8]) -> bool
    requires { answer_room ≤ length out.old }
{
    let written = uneven(book, out);
    let taken = repeated(book, out, b"T 0 0 1\n0\n", 5);
    let shown = runs(
        book,
        out,
        b"F 0 0\n0\nR 0 0\n0 9 1065353216 1065353216 0 5\nT 1 0 0\n0\nF 1 0\n0\nR 1 0\n0 9 1065353216 1065353216 0 5\n",
    );
    written && taken && shown
}

// (l) equal sums go entry by entry from depot 0 on: (2, 0) is greater than (1, 1), so the first depot's 8 stays.
fn case_l(book: &mut [u32], out: &mut [u8]) -> bool
    requires { answer_room ≤ length out.old }
{
    let fresh = runs(
        book,
        out,
        b"S 2 1 4 2 0 1\n0\nW 0 0 7 1065353216 1065353216\n0 1 C\nT 1 0 0\n0\nF 1 0\n0\nR 1 0\n0 7 1065353216 1065353216 1 0\n",
    );
    let written = runs(
        book,
        out,
        b"W 0 0 8 1065353216 1065353216\n0 2 C\nW 1 0 9 1065353216 1065353216\n0 1 C\n",
    );
    let taken = runs(book, out, b"T 0 0 1\n0\nF 0 0\n0\nT 1 0 0\n0\nF 1 0\n0\n");
    let read = runs(
        book,
        out,
        b"R 0 0\n0 8 1065353216 1065353216 2 0\nR 1 0\n0 8 1065353216 1065353216 2 0\n",
    );
    fresh && written && taken && read
}

// (m) a card of 2,000 by the least float above 0 is written, carried and read; the float after 2,000, 0, a NaN and a negative length are BAD CARD, after BAD KEY and
// BAD DATE and before WAIT.
fn case_m(book: &mut [u32], out: &mut [u8]) -> bool
    requires { answer_room ≤ length out.old }
{
    let written = runs(
        book,
        out,
        b"S 2 2 4 2 0 1\n0\nW 0 0 20 1157234688 1\n0 1 C\nT 1 0 0\n0\nK 0 1\n0\nT 1 1 0\n0\nF 1 0\n0\nR 1 0\n0 20 1157234688 1 1 0\n",
    );
    let refused = runs(
        book,
        out,
        b"W 1 0 20 1157234689 1\n14\nW 1 0 20 1 0\n14\nW 1 0 20 2143289344 1\n14\nW 1 0 20 1 3212836864\n14\n",
    );
    let ordered = runs(
        book,
        out,
        b"W 1 4 20 0 0\n4\nW 1 0 146097 0 0\n16\nW 0 0 20 1 1\n0 2 C\nW 0 1 20 0 0\n14\nW 0 1 20 1 1\n8\n",
    );
    written && refused && ordered
}

// Whether these depots, so many of them, have depot d's version of a bearing.
fn is_told(book: &[u32], depot: u32, bearing: u32, depots: u32, number: u32) -> bool {
    match who_has(book, depot, bearing) {
        Ok(Holders { mask, count }) => mask == depots && count == number,
        Err(_) => false,
    }
}

// (n) who has it: at the listing's end both depots have depot 0's 20, depot 0 alone its 30, and all have what depot 1 has of that bearing, unwritten. After (a) and (b) both have the 30.
fn case_n(book: &mut [u32], out: &mut [u8]) -> bool
    requires { answer_room ≤ length out.old }
{
    let listed = listing(book, out);
    let both = is_told(book, 0, 0, 3, 2);
    let one = is_told(book, 0, 1, 1, 1);
    let unwritten = is_told(book, 1, 1, 3, 2);
    let shown = runs(
        book,
        out,
        b"R 1 0\n0 20 1065353216 1065353216 1 0\nT 1 1 0\n0\nF 1 1\n0\nK 0 0\n0\nT 1 0 0\n0\nF 1 1\n0\n",
    );
    listed && both && one && unwritten && shown && is_told(book, 0, 1, 3, 2)
}

// Whether a crew's move to a depot has this number.
fn is_moved(book: &mut [u32], crew: u32, depot: u32, number: u32) -> bool {
    match move_crew(book, crew, depot) {
        Ok(()) => number == 0,
        Err(r) => number_of(r) == number,
    }
}

// The numbers of a move: depot 1 has not seen what crew 0 wrote, its home is always open, and there is no crew 2 and no depot 2.
fn is_barred(book: &mut [u32]) -> bool {
    let unseen = is_moved(book, 0, 1, 12);
    let present = is_moved(book, 0, 0, 0);
    let crew = is_moved(book, 2, 2, 5);
    let depot = is_moved(book, 0, 2, 2);
    unseen && present && crew && depot
}

// It is let in when both shelves there have seen it, and not when one has.
fn moves_there(book: &mut [u32], out: &mut [u8]) -> bool
    requires { answer_room ≤ length out.old }
{
    let taken = runs(book, out, b"T 1 0 0\n0\n");
    let behind = is_moved(book, 0, 1, 12);
    let seen = runs(book, out, b"K 0 1\n0\nT 1 1 0\n0\n");
    let there = is_moved(book, 0, 1, 0);
    taken && behind && seen && there
}

// There it reads what it wrote and writes on it; back it goes when depot 0 has seen that.
fn moves_back(book: &mut [u32], out: &mut [u8]) -> bool
    requires { answer_room ≤ length out.old }
{
    let read = runs(
        book,
        out,
        b"R 0 0\n0 20 1065353216 1065353216 1 0\nW 0 0 30 1065353216 1065353216\n0 1 C\nR 0 0\n0 30 1065353216 1065353216 1 1\n",
    );
    let early = is_moved(book, 0, 0, 12);
    let sent = runs(book, out, b"K 1 1\n0\nT 0 0 1\n0\nT 0 1 1\n0\n");
    let back = is_moved(book, 0, 0, 0);
    let ended = runs(book, out, b"R 0 0\n0 30 1065353216 1065353216 1 1\n");
    read && early && sent && back && ended
}

// (o) a crew changes depot, there and back.
fn case_o(book: &mut [u32], out: &mut [u8]) -> bool
    requires { answer_room ≤ length out.old }
{
    let written = runs(
        book,
        out,
        b"S 2 2 4 2 0 1\n0\nW 0 0 20 1065353216 1065353216\n0 1 C\n",
    );
    let barred = is_barred(book);
    let there = moves_there(book, out);
    let back = moves_back(book, out);
    written && barred && there && back
}

// (?) what must not pass: a wrong number, an answer that is cut, one that goes on, and a wrong word. Each is told as different.
fn wrong_answers(book: &mut [u32], out: &mut [u8]) -> bool
    requires { answer_room ≤ length out.old }
{
    let number = runs(book, out, b"S 1 1 1 1 0\n1\n");
    let cut = runs(book, out, b"R 0 0\n0 -\n");
    let longer = runs(book, out, b"R 0 0\n0 - 0 0\n");
    let word = is_clock(book, 1);
    number || cut || longer || word
}

// Says how a case went.
fn tell(rt: &impl Print, letter: u8, good: bool) -> io::Result<()> {
    let name = [b'(', letter, b')', b' '];
    rt.write_all(&name)?;
    if good {
        rt.write_all(b"as written\n")
    } else {
        rt.write_all(b"DIFFERS\n")
    }
}

// Those that go on from the listing.
fn from_listing(rt: &impl Print, book: &mut [u32], out: &mut [u8]) -> io::Result<()>
    requires { answer_room ≤ length out.old }
{
    tell(rt, b'a', case_a(book, out))?;
    tell(rt, b'b', case_b(book, out))?;
    tell(rt, b'c', case_c(book, out))?;
    tell(rt, b'd', case_d(book, out))?;
    tell(rt, b'e', case_e(book, out))
}

// Those that start afresh.
fn from_setup(rt: &impl Print, book: &mut [u32], out: &mut [u8]) -> io::Result<()>
    requires { (length book.old ≡ book_words) × (answer_room ≤ length out.old) }
{
    tell(rt, b'f', case_f(book, out))?;
    tell(rt, b'g', case_g(book, out))?;
    tell(rt, b'h', case_h(book, out))?;
    tell(rt, b'i', case_i(book, out))
}

// Those of later requests.
fn from_requests(rt: &impl Print, book: &mut [u32], out: &mut [u8]) -> io::Result<()>
    requires { answer_room ≤ length out.old }
{
    tell(rt, b'j', case_j(book, out))?;
    tell(rt, b'k', case_k(book, out))?;
    tell(rt, b'l', case_l(book, out))?;
    tell(rt, b'm', case_m(book, out))
}

// Those of calls that are no lines.
fn from_calls(rt: &impl Print, book: &mut [u32], out: &mut [u8]) -> io::Result<()>
    requires { answer_room ≤ length out.old }
{
    tell(rt, b'n', case_n(book, out))?;
    tell(rt, b'o', case_o(book, out))
}

fn main(rt: HostRuntime) -> io::Result<()> {
    let mut book = [0u32; BOOK_WORDS];
    let mut out = [0u8; ANSWER_ROOM];
    from_listing(&rt, &mut book, &mut out)?;
    from_setup(&rt, &mut book, &mut out)?;
    from_requests(&rt, &mut book, &mut out)?;
    from_calls(&rt, &mut book, &mut out)?;
    tell(&rt, b'p', case_p(&mut book, &mut out))?;
    tell(&rt, b'?', wrong_answers(&mut book, &mut out))
}
