// A table of 256 rows of 256 bits: bit j of row i says that place i leads to place j.
ghost use Rattle.std.specs.Prelude.{◌≡◌, ◌*◌, ◌≤◌, ◌<◌, length};
ghost use Rattle.chains.specs.Chain.{Closed};
ghost use Rattle.chains.specs.Table.{most_rows, row_words, table_words, bit, Adds, one, joins, turns};

pub const TABLE_WORDS: usize = 1024;

const ROW_WORDS: usize = 4;

const WORD_BITS: usize = 64;

// Whether bit j of row i is set.
pub fn is_set(table: &[u64], i: usize, j: usize) -> bool
    requires { (length table.now ≡ table_words) × (i < most_rows) × (j < most_rows) }
    ensures { result ≡ bit table.now i j }
{
    let at = i * ROW_WORDS + j / WORD_BITS;
    (table[at] >> (j % WORD_BITS)) % 2 == 1
}

// Bit j of row i is set, and no other changes.
pub fn mark(table: &mut [u64], i: usize, j: usize)
    requires { (length table.old ≡ table_words) × (i < most_rows) × (j < most_rows) }
    ensures { Adds table.old (one i j) table.new }
{
    let at = i * ROW_WORDS + j / WORD_BITS;
    table[at] |= 1 << (j % WORD_BITS);
}

// If the row of word p has bit k, the bits of row k are set in that word.
fn join_word(table: &mut [u64], k: usize, p: usize)
    requires { (length table.old ≡ table_words) × (k < most_rows) × (p < table_words) }
    ensures { Adds table.old (joins (bit table.old) k p) table.new }
{
    if !is_set(table, p / ROW_WORDS, k) {
        return;
    }
    let from = k * ROW_WORDS + p % ROW_WORDS;
    table[p] |= table[from];
}

// The bits of row k are set in each of the first n rows that has bit k.
fn join(table: &mut [u64], k: usize, n: usize)
    requires { (length table.old ≡ table_words) × (k < most_rows) × (n ≤ most_rows) }
    ensures { Adds table.old (turns (n * row_words) (joins (bit table.old) k)) table.new }
{
    for p in 0..n * ROW_WORDS {
        join_word(table, k, p);
    }
}

// From the steps between the first n places to all chains of them.
pub fn close(table: &mut [u64], n: usize)
    requires { (length table.old ≡ table_words) × (n ≤ most_rows) }
    ensures { (length table.new ≡ table_words) × Closed n (bit table.old) (bit table.new) }
{
    for k in 0..n {
        join(table, k, n);
    }
}
