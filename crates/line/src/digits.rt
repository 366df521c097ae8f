// The number reader: decimal numbers of 1 to 10 digits with no spare leading zero, at most 4,294,967,295.
ghost use Rattle.std.specs.Prelude.{◌≡◌, ◌+◌, ◌≤◌, drop};
ghost use Rattle.line.specs.Number.{most_digits, digit_run, value_from, number_from};

const MOST_DIGITS: usize = 10;

const MOST_NUMBER: u64 = 4_294_967_295;

// A number that stands in a text, with the place after it.
#[derive(Clone, Copy)]
pub struct Number {
    pub value: u32,
    pub next: usize,
}

// How many digits stand from `at` on.
fn digits_at(s: &[u8], at: usize) -> usize
    ensures { result ≡ digit_run (drop at s.now) }
{
    for i in at..s.len() {
        if !s[i].is_ascii_digit() {
            return i - at;
        }
    }
    s.len().saturating_sub(at)
}

// The number that the digits from `at` on spell, of which there are at most ten.
fn value_at(s: &[u8], at: usize) -> u64
    requires { digit_run (drop at s.now) ≤ most_digits }
    ensures { result ≡ value_from 0 (drop at s.now) }
{
    let mut v: u64 = 0;
    for i in at..s.len() {
        let b = s[i];
        if !b.is_ascii_digit() {
            return v;
        }
        v = v * 10 + (b - b'0') as u64;
    }
    v
}

// The number that stands at `at`, if one does.
pub fn read_number(s: &[u8], at: usize) -> Option<Number>
    ensures { result ≡ number_from s.now at }
{
    let n = digits_at(s, at);
    if n == 0 {
        return None;
    }
    if MOST_DIGITS < n {
        return None;
    }
    if 1 < n {
        if s[at] == b'0' {
            return None;
        }
    }
    let v = value_at(s, at);
    if MOST_NUMBER < v {
        return None;
    }
    Some(Number {
        value: v as u32,
        next: at + n,
    })
}
