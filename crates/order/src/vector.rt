// Vectors among words: a run of entries, one a depot. Every rule says how many entries count.
ghost use Rattle.std.specs.Prelude.{◌≡◌, ◌+◌, ◌≤◌, ◌<◌, length};
ghost use Rattle.order.specs.Vector.{vector_in, covered, zeros, sum, merge_one, merged_at};
ghost use Rattle.order.specs.Record.{most_depots};

// Whether u is covered by v in all of the n entries but that of depot `own`.
pub fn is_covered(u: &[u32], v: &[u32], n: usize, own: usize) -> bool
    requires { (n ≤ length u.now) × (n ≤ length v.now) }
    ensures { result ≡ covered n own (vector_in u.now) (vector_in v.now) }
{
    (0..n).all(|x| x == own || u[x] <= v[x])
}

// Whether all of the n entries are 0.
pub fn is_zero(u: &[u32], n: usize) -> bool
    requires { n ≤ length u.now }
    ensures { result ≡ zeros n (vector_in u.now) }
{
    (0..n).all(|x| u[x] == 0)
}

// The sum of the n entries. It is wider than an entry: four of 32 bits make up to 34.
pub fn sum_of(u: &[u32], n: usize) -> u64
    requires { (n ≤ length u.now) × (n ≤ most_depots) }
    ensures { result ≡ sum n (vector_in u.now) }
{
    let mut total: u64 = 0;
    for x in &u[..n] {
        total += *x as u64;
    }
    total
}

// The entry of depot x, unless x is `own`, becomes the larger of itself and what is offered.
fn merge_one(to: &mut [u32], at: usize, x: usize, offered: u32, own: usize)
    requires { at + x < length to.old }
    ensures { to.new ≡ merge_one own at x offered to.old }
{
    if x != own {
        let place = at + x;
        to[place] = to[place].max(offered);
    }
}

// Each of the n entries from `at` on, but that of depot `own`, becomes the larger of itself and what is offered.
pub fn merge(to: &mut [u32], at: usize, offered: &[u32], n: usize, own: usize)
    requires { (at + n ≤ length to.old) × (n ≤ length offered.now) }
    ensures { to.new ≡ merged_at n own (vector_in offered.now) at to.old }
{
    for x in 0..n {
        merge_one(to, at, x, offered[x], own);
    }
}
