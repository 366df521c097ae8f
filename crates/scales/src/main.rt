// Weighs some cards: writes the two words of each and the bits of its grams, or that it is no card. What is printed is kept in the file `stdout`.
#![tactic(auto)]

use card::grams;
use std::io;

fn show(rt: &impl Print, diameter: u32, width: u32) -> io::Result<()> {
    match grams(diameter, width) {
        Some(bits) => println!(rt; "{diameter:08x} {width:08x} {bits:016x}"),
        None => println!(rt; "{diameter:08x} {width:08x} bad card"),
    }
}

// Rounded in another order, or in 32 bits, the second and the third come out with other bits.
fn show_worked(rt: &impl Print) -> io::Result<()> {
    show(rt, 0x4250_0000, 0x4170_0000)?;
    show(rt, 0x423C_0000, 0x4160_0000)?;
    show(rt, 0x4198_6666, 0x40CB_3333)
}

// 1 by 1, the least float above 0, and 2,000.
fn show_ends(rt: &impl Print) -> io::Result<()> {
    show(rt, 0x3F80_0000, 0x3F80_0000)?;
    show(rt, 1, 1)?;
    show(rt, 0x44FA_0000, 0x44FA_0000)
}

// 0, the float after 2,000, an infinity, two NaNs, and the negative ones; as a diameter, then as a width.
fn show_bad(rt: &impl Print) -> io::Result<()> {
    show(rt, 0, 0x3F80_0000)?;
    show(rt, 0x44FA_0001, 0x3F80_0000)?;
    show(rt, 0x7F80_0000, 0x3F80_0000)?;
    show(rt, 0x7F80_0001, 0x3F80_0000)?;
    show(rt, 0x7FC0_0000, 0x3F80_0000)?;
    show(rt, 0x3F80_0000, 0x8000_0000)?;
    show(rt, 0x3F80_0000, 0x8000_0001)?;
    show(rt, 0x3F80_0000, 0xBF80_0000)?;
    show(rt, 0x3F80_0000, 0xFF80_0000)?;
    show(rt, 0x3F80_0000, 0xFFFF_FFFF)
}

fn main(rt: HostRuntime) -> io::Result<()> {
    show_worked(&rt)?;
    show_ends(&rt)?;
    show_bad(&rt)
}
