// A list's page to the byte: of each bearing what a read prints after its 0, in list order.
ghost use Rattle.std.specs.Prelude.{◌≡◌, ◌∷◌, ◌+◌, ◌*◌, ◌≤◌, length};
ghost use Rattle.paper.specs.Answers.{told_in, told_all};
ghost use Rattle.line.specs.Number.{zero_byte};
ghost use Rattle.line.specs.Printing.{Wrote};
ghost use Rattle.reply.specs.Printed.{told_bytes, page_bytes, told_room};

use line::answers::{print_unwritten, print_value};
use paper::answer::Payload;

// The words that each bearing is answered with, and where its entries begin.
const TOLD_WORDS: usize = 8;

const ENTRIES: usize = 4;

// What eight words tell of a bearing.
fn say_told(told: &[u32], depots: usize, out: &mut [u8], at: usize) -> usize
    requires { (length told.now ≡ 8) × (depots ≤ 4) × (at + told_room ≤ length out.old) }
    ensures { Wrote out.old at (told_bytes (told_in depots told.now)) out.new result }
{
    if told[0] == 0 {
        return print_unwritten(out, at, &told[ENTRIES..], depots);
    }
    let payload = Payload {
        value: told[1],
        diameter: told[2],
        width: told[3],
    };
    print_value(out, at, payload, &told[ENTRIES..], depots)
}

// What the words tell of each bearing.
fn say_page(words: &[u32], bearings: usize, depots: usize, out: &mut [u8], at: usize) -> usize
    requires { (8 * bearings ≤ length words.now) × (depots ≤ 4) × (at + told_room * bearings ≤ length out.old) }
    ensures { Wrote out.old at (page_bytes (told_all depots bearings words.now)) out.new result }
{
    let mut next = at;
    for i in 0..bearings {
        let from = TOLD_WORDS * i;
        let end = from + TOLD_WORDS;
        next = say_told(&words[from..end], depots, out, next);
    }
    next
}

// The answer of a list that is done.
pub fn say_list(words: &[u32], bearings: usize, depots: usize, out: &mut [u8], at: usize) -> usize
    requires { (8 * bearings ≤ length words.now) × (depots ≤ 4) × (at + 1 + told_room * bearings ≤ length out.old) }
    ensures { Wrote out.old at (zero_byte ∷ page_bytes (told_all depots bearings words.now)) out.new result }
{
    out[at] = b'0';
    say_page(words, bearings, depots, out, at + 1)
}
