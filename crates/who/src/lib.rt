// Who has it: of a bearing, the depots that now store a depot's present version or a greater one. Looking changes no word of the book.
#![tactic(auto)]

ghost use Rattle.std.specs.Prelude.{◌≡◌, ◌+◌, ◌*◌, ◌^◌, ◌≤◌, ◌<◌, length};
ghost use Rattle.loops.specs.Loops.{pick};
ghost use Rattle.order.specs.Record.{most_depots};
ghost use Rattle.book.specs.Layout.{book_words, bearing_room};
ghost use Rattle.who.specs.Bits.{mask_of};
ghost use Rattle.who.specs.Who.{has_it, who_parts, WhoHas};

use book::layout::stored_at;
use book::numbers::{Bearing, Depot, Numbered};
use book::parts::{Counts, counts_of};
use named_call::base_fits;
use order::record::{RECORD_WORDS, is_above};
use paper::answer::Refusal;
use versions::version::stored_fits;

// Which depots have it: bit d of the mask for depot d, and how many bits are set.
#[derive(Clone, Copy)]
pub struct Holders {
    pub mask: u32,
    pub count: u32,
}

// Whether the stored version of a bearing is fit at every depot.
fn stores_fit(book: &[u32], n: Counts, k: Bearing) -> bool
    requires { (length book.now ≡ book_words) × (n.depots ≤ most_depots) × (k.0 < bearing_room) }
    ensures { result ≡ who_parts n book.now k.0 }
{
    (0..n.depots).all(|d| stored_fits(book, n, Depot::nth(d, n.depots), k))
}

// Whether depot x stores depot d's version of a bearing or a greater one.
fn has_it(book: &[u32], n: usize, d: Depot, k: Bearing, x: Depot) -> bool
    requires { (length book.now ≡ book_words) × (n ≤ most_depots) × (d.0 < most_depots) × (k.0 < bearing_room) × (x.0 < most_depots) }
    ensures { result ≡ has_it n book.now d.0 k.0 x.0 }
{
    let asked = stored_at(d, k);
    let asked_end = asked + RECORD_WORDS;
    let at = stored_at(x, k);
    let end = at + RECORD_WORDS;
    !is_above(&book[asked..asked_end], &book[at..end], n)
}

// The mask with the bit of depot x, if it has it, above the bits of the depots before.
fn with_bit(mask: u32, x: usize, has: bool) -> u32
    requires { (x < most_depots) × (mask < 2 ^ x) }
    ensures { result ≡ pick has 1 0 * 2 ^ x + mask }
{
    if has {
        return mask | (1 << x);
    }
    mask
}

// The mask of the depots that have it, depot after depot.
fn mask_of(book: &[u32], n: usize, d: Depot, k: Bearing) -> u32
    requires { (length book.now ≡ book_words) × (n ≤ most_depots) × (d.0 < most_depots) × (k.0 < bearing_room) }
    ensures { result ≡ mask_of n (has_it n book.now d.0 k.0) }
{
    let mut mask: u32 = 0;
    for x in 0..n {
        mask = with_bit(mask, x, has_it(book, n, d, k, Depot::nth(x, n)));
    }
    mask
}

// For a bearing and a depot's present version of it, which depots now store it or a greater one, and how many they are. Refuses, in this
// order: BAD BOOK, BAD DEPOT, BAD KEY.
pub fn who_has(book: &[u32], depot: u32, bearing: u32) -> Result<Holders, Refusal>
    ensures { WhoHas book.now depot bearing result }
{
    if !base_fits(book) {
        return Err(Refusal::BadBook);
    }
    let n = counts_of(book);
    let d = Depot::checked(depot, n.depots).ok_or(Refusal::BadDepot)?;
    let k = Bearing::checked(bearing, n.bearings).ok_or(Refusal::BadKey)?;
    if !stores_fit(book, n, k) {
        return Err(Refusal::BadBook);
    }
    let mask = mask_of(book, n.depots, d, k);
    Ok(Holders {
        mask,
        count: mask.count_ones(),
    })
}
