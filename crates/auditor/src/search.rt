// What may be wrong with an entry of a history.
ghost use Rattle.std.specs.Prelude.{◌≡◌, ◌<◌};
ghost use Rattle.chains.specs.Table.{bit};
ghost use Rattle.entries.specs.Entries.{entries};
ghost use Rattle.entries.specs.Ready.{Ready};
ghost use Rattle.auditor.specs.Verdict.{bad_write, bad_read, bad};
ghost use Rattle.auditor.specs.Judging.{Within, low};

use chains::table::is_set;
use entries::beside::{ENTRY_WORDS, ORIGIN, READ, VECTOR, WRITE, is_source, is_twin, lower_than};
use order::record::MOST_DEPOTS;
use order::vector::is_zero;

// Whether entry i is no write that a history has.
#[tactic(auto, unfolding(crate::specs::Verdict::bad_write))]
fn is_bad_write(h: &[u32], i: usize, n: usize) -> bool
    requires { Within h.now n i }
    ensures { result ≡ bad_write h.now i }
{
    let at = i * ENTRY_WORDS;
    let origin = h[at + ORIGIN] as usize;
    MOST_DEPOTS <= origin || h[at + VECTOR + origin] == 0 || (0..n).any(|j| is_twin(h, i, j))
}

// Whether entry i is no read that a history has.
#[tactic(auto, unfolding(crate::specs::Verdict::bad_read))]
fn is_bad_read(h: &[u32], i: usize, n: usize) -> bool
    requires { Within h.now n i }
    ensures { result ≡ bad_read h.now i }
{
    let at = i * ENTRY_WORDS;
    let unwritten = is_zero(&h[at + VECTOR..at + ENTRY_WORDS], MOST_DEPOTS);
    !unwritten && !(0..n).any(|j| is_source(h, i, j))
}

// Whether entry i is none that a history has.
#[tactic(auto, unfolding(crate::specs::Verdict::bad, loops::specs::Loops::pick))]
pub fn is_bad(h: &[u32], i: usize, n: usize) -> bool
    requires { Within h.now n i }
    ensures { result ≡ bad h.now i }
{
    match h[i * ENTRY_WORDS] {
        WRITE => is_bad_write(h, i, n),
        READ => is_bad_read(h, i, n),
        _ => true,
    }
}

// Whether entry i is a read that is lower than a write in its past.
pub fn is_low(h: &[u32], past: &[u64], i: usize, n: usize) -> bool
    requires { Ready h.now n past.now × (i < n) }
    ensures { result ≡ low h.now (bit past.now) i }
{
    (0..n).any(|j| is_set(past, i, j) && lower_than(h, i, j))
}
