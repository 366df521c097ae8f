// One entry of a history beside another.
ghost use Rattle.std.specs.Prelude.{◌≡◌, ◌+◌, ◌≤◌, length};
ghost use Rattle.order.specs.Vector.{vector_at, agree};
ghost use Rattle.entries.specs.Entries.{wrote, source, twin, earlier};
ghost use Rattle.entries.specs.Rests.{rests_on, lower_than};
ghost use Rattle.entries.specs.Ready.{Both};

use order::record::{MOST_DEPOTS, RECORD_WORDS, is_above};

pub const ENTRY_WORDS: usize = 11;

pub const MOST_ENTRIES: usize = 256;

// The kinds: word 0 of an entry.
pub const WRITE: u32 = 0;

pub const READ: u32 = 1;

// The places of its other words; the record begins with the bearing.
const CREW: usize = 1;

const RECORD: usize = 2;

pub const ORIGIN: usize = 6;

const RANK_WORDS: usize = 5;

pub const VECTOR: usize = 7;

// Whether the n words from p on are those from q on.
fn is_same(h: &[u32], p: usize, q: usize, n: usize) -> bool
    requires { (p + n ≤ length h.now) × (q + n ≤ length h.now) }
    ensures { result ≡ agree n (vector_at h.now p) (vector_at h.now q) }
{
    (0..n).all(|x| h[p + x] == h[q + x])
}

// Whether entry j is a write of the version that entry i has.
#[tactic(auto, unfolding(crate::specs::Entries::wrote))]
fn is_wrote(h: &[u32], i: usize, j: usize) -> bool
    requires { Both h.now i j }
    ensures { result ≡ wrote h.now i j }
{
    let a = i * ENTRY_WORDS;
    let b = j * ENTRY_WORDS;
    h[b] == WRITE
        && h[a + RECORD] == h[b + RECORD]
        && is_same(h, a + ORIGIN, b + ORIGIN, RANK_WORDS)
}

// Whether entry j is a write of the version that entry i has, with its value and card.
#[tactic(auto, unfolding(crate::specs::Entries::source))]
pub fn is_source(h: &[u32], i: usize, j: usize) -> bool
    requires { Both h.now i j }
    ensures { result ≡ source h.now i j }
{
    let a = i * ENTRY_WORDS;
    let b = j * ENTRY_WORDS;
    h[b] == WRITE && is_same(h, a + RECORD, b + RECORD, RECORD_WORDS)
}

// Whether entry j is another write of the version that entry i has.
#[tactic(auto, unfolding(crate::specs::Entries::twin))]
pub fn is_twin(h: &[u32], i: usize, j: usize) -> bool
    requires { Both h.now i j }
    ensures { result ≡ twin h.now i j }
{
    i != j && is_wrote(h, i, j)
}

// Whether entry j is an earlier one of entry i's crew.
#[tactic(auto, unfolding(crate::specs::Entries::earlier))]
fn is_earlier(h: &[u32], i: usize, j: usize) -> bool
    requires { Both h.now i j }
    ensures { result ≡ earlier h.now i j }
{
    j < i && h[i * ENTRY_WORDS + CREW] == h[j * ENTRY_WORDS + CREW]
}

// Whether entry i rests directly on entry j.
#[tactic(auto, unfolding(crate::specs::Rests::rests_on))]
pub fn rests_on(h: &[u32], i: usize, j: usize) -> bool
    requires { Both h.now i j }
    ensures { result ≡ rests_on h.now i j }
{
    is_earlier(h, i, j) || h[i * ENTRY_WORDS] == READ && is_wrote(h, i, j)
}

// Whether entry i is a read that is lower than entry j, a write to the same bearing.
#[tactic(auto, using(crate::proofs::EntryLaws::above_parts), unfolding(crate::specs::Rests::lower_than))]
pub fn lower_than(h: &[u32], i: usize, j: usize) -> bool
    requires { Both h.now i j }
    ensures { result ≡ lower_than h.now i j }
{
    let a = i * ENTRY_WORDS;
    let b = j * ENTRY_WORDS;
    h[a] == READ
        && h[b] == WRITE
        && h[a + RECORD] == h[b + RECORD]
        && is_above(
            &h[b + RECORD..b + ENTRY_WORDS],
            &h[a + RECORD..a + ENTRY_WORDS],
            MOST_DEPOTS,
        )
}
