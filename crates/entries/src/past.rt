// The table of what lies in whose past.
ghost use Rattle.std.specs.Prelude.{◌≡◌, ◌<◌, length, replicate};
ghost use Rattle.chains.specs.Chain.{Closed};
ghost use Rattle.chains.specs.Table.{table_words, bit, Adds, turns, direct};
ghost use Rattle.entries.specs.Entries.{entries};
ghost use Rattle.entries.specs.Rests.{rests_on};
ghost use Rattle.entries.specs.Ready.{Ready};

use crate::beside::rests_on;
use chains::table::{close, mark};

// What entry i rests on directly is set in its row.
fn mark_row(h: &[u32], past: &mut [u64], i: usize, n: usize)
    requires { Ready h.now n past.old × (i < n) }
    ensures { Adds past.old (turns n (direct (rests_on h.now) i)) past.new }
{
    for j in 0..n {
        if rests_on(h, i, j) {
            mark(past, i, j);
        }
    }
}

// What each entry rests on directly is set in its row.
fn mark_all(h: &[u32], past: &mut [u64], n: usize)
    requires { Ready h.now n past.old }
    ensures { Adds past.old (turns n (λ i. turns n (direct (rests_on h.now) i))) past.new }
{
    for i in 0..n {
        mark_row(h, past, i, n);
    }
}

// A table of zeros becomes that of the entries' pasts.
pub fn fill(h: &[u32], past: &mut [u64], n: usize)
    requires { Ready h.now n past.old × (past.old ≡ replicate table_words 0) }
    ensures { (length past.new ≡ table_words) × Closed (entries h.now) (rests_on h.now) (bit past.new) }
{
    mark_all(h, past, n);
    close(past, n);
}
