// The printer: numbers and runs of numbers, into an output that is lent. Each function says the place after what it wrote.
ghost use Rattle.std.specs.Prelude.{◌∷◌, take, length, ◌≤◌};
ghost use Rattle.line.specs.Number.{decimal};
ghost use Rattle.line.specs.Grammar.{space_byte, spaced};
ghost use Rattle.line.specs.Printing.{Room, Wrote};

// n in decimal, from the place `at` on.
pub fn print_number(out: &mut [u8], at: usize, n: u32) -> usize
    requires { Room out.old at (decimal n) }
    ensures { Wrote out.old at (decimal n) out.new result }
{
    if n < 10 {
        out[at] = b'0' + n as u8;
        return at + 1;
    }
    let last = print_number(out, at, n / 10);
    out[last] = b'0' + (n % 10) as u8;
    last + 1
}

// n after one space.
pub fn print_spaced(out: &mut [u8], at: usize, n: u32) -> usize
    requires { Room out.old at (space_byte ∷ decimal n) }
    ensures { Wrote out.old at (space_byte ∷ decimal n) out.new result }
{
    out[at] = b' ';
    print_number(out, at + 1, n)
}

// The first `count` of the numbers, each after one space.
pub fn print_numbers(out: &mut [u8], at: usize, numbers: &[u32], count: usize) -> usize
    requires { (count ≤ length numbers.now) × Room out.old at (spaced (take count numbers.now)) }
    ensures { Wrote out.old at (spaced (take count numbers.now)) out.new result }
{
    let mut next = at;
    for i in 0..count {
        next = print_spaced(out, next, numbers[i]);
    }
    next
}
