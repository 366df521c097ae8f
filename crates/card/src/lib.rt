// A card: a bearing's outside diameter and width in millimetres. A record keeps it as two words, the bits of the two floats. No public function
// asks anything of its caller.
#![tactic(auto)]

ghost use Rattle.std.specs.Prelude.{◌≡◌};
ghost use Rattle.card.specs.Card.{float_of, length_fit, card_fit, card_answer, word_of, grams_answer};

#[derive(Clone, Copy)]
pub struct Card {
    pub diameter: f32,
    pub width: f32,
}

// The bits of the least float above 0, and of 2,000. Of floats that are not negative the greater one has the greater bits.
const LEAST: u32 = 1;

const MOST: u32 = 0x44FA_0000;

// Grams of grease for a square millimetre of diameter times width.
const DENSITY: f64 = 0.005;

// Whether a word is a length that a card may have.
fn length_fits(bits: u32) -> bool
    ensures { result ≡ length_fit (float_of bits) }
{
    if bits < LEAST {
        return false;
    }
    bits <= MOST
}

// Whether two words are a card.
pub fn card_fits(diameter: u32, width: u32) -> bool
    ensures { result ≡ card_fit diameter width }
{
    if !length_fits(diameter) {
        return false;
    }
    length_fits(width)
}

// The card of two words, if they are one.
pub fn card_of(diameter: u32, width: u32) -> Option<Card>
    ensures { result ≡ card_answer diameter width }
{
    if !card_fits(diameter, width) {
        return None;
    }
    Some(Card {
        diameter: f32::from_bits(diameter),
        width: f32::from_bits(width),
    })
}

// The word of a float: its bits, and 0 for a NaN, which has none of its own.
fn word_of(x: f32) -> u32
    ensures { result ≡ word_of x }
{
    if x != x {
        return 0;
    }
    f32::to_bits(x)
}

// The two words of a card.
pub fn diameter_bits(card: Card) -> u32
    ensures { result ≡ word_of card.diameter }
{
    word_of(card.diameter)
}

pub fn width_bits(card: Card) -> u32
    ensures { result ≡ word_of card.width }
{
    word_of(card.width)
}

// The bits of the grams shown for the card of two words, a 64-bit float: outside diameter times width, then times 0.005. None if they are no card.
pub fn grams(diameter: u32, width: u32) -> Option<u64>
    ensures { result ≡ grams_answer diameter width }
{
    if !card_fits(diameter, width) {
        return None;
    }
    let d = f32::from_bits(diameter) as f64;
    let w = f32::from_bits(width) as f64;
    Some(f64::to_bits(d * w * DENSITY))
}
