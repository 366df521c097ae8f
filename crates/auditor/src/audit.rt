// The auditor.
ghost use Rattle.std.specs.Prelude.{◌≡◌, replicate};
ghost use Rattle.chains.specs.Table.{table_words};
ghost use Rattle.entries.specs.Ready.{Ready};
ghost use Rattle.auditor.specs.Verdict.{Judged, Verdict};

use crate::finding::Finding;
use crate::search::{is_bad, is_low};
use chains::table::{TABLE_WORDS, is_set};
use entries::beside::{ENTRY_WORDS, MOST_ENTRIES};
use entries::past::fill;

// What is to be said of n entries. The table is lent as zeros.
fn judge(h: &[u32], past: &mut [u64], n: usize) -> Finding
    requires { Ready h.now n past.old × (past.old ≡ replicate table_words 0) }
    ensures { Judged h.now result }
{
    if let Some(bad) = (0..n).find(|&i| is_bad(h, i, n)) {
        return Finding::Refused(bad as u32);
    }
    fill(h, past, n);
    if let Some(circle) = (0..n).find(|&i| is_set(past, i, i)) {
        return Finding::Circle(circle as u32);
    }
    if let Some(low) = (0..n).find(|&i| is_low(h, past, i, n)) {
        return Finding::Low(low as u32);
    }
    Finding::Causal
}

// What is to be said of a history: any words get an answer.
pub fn audit(history: &[u32]) -> Finding
    ensures { Verdict history.now result }
{
    let words = history.len();
    if MOST_ENTRIES * ENTRY_WORDS < words {
        return Finding::TooMany;
    }
    if words % ENTRY_WORDS != 0 {
        return Finding::BadLength;
    }
    let mut past = [0u64; TABLE_WORDS];
    judge(history, &mut past, words / ENTRY_WORDS)
}
