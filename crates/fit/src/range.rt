// Vectors in range.
ghost use Rattle.std.specs.Prelude.{◌≡◌, ◌≤◌, length};
ghost use Rattle.order.specs.Record.{most_depots};
ghost use Rattle.order.specs.Vector.{vector_in};
ghost use Rattle.fit.specs.Fit.{others_in_range};

use book::layout::END;
use order::vector::is_covered;

const ENDS: [u32; 4] = [END, END, END, END];

// Whether all of the n entries but that of depot `own` are in range.
pub fn others_in_range(v: &[u32], n: usize, own: usize) -> bool
    requires { (n ≤ most_depots) × (n ≤ length v.now) }
    ensures { result ≡ others_in_range n own (vector_in v.now) }
{
    is_covered(v, &ENDS, n, own)
}
