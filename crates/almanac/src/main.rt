// Compares the calendar with another way to compute dates: on all 146,097 days, on all dates and what is next to them, and on anchors of
// every day of the month with a spread of steps and counts. Writes how many of each were asked, what was answered, and how many were wrong.
#![tactic(auto)]

mod compare;
mod eras;

use crate::compare::{Outcome, date_compared, day_compared, next_compared};
use calendar::answers::DateRefusal;
use std::io;

// How many answers were dates, how many refusals of each number, and how many wrong.
#[derive(Clone, Copy, Default)]
struct Tally {
    dates: u64,
    bad_date: u64,
    bad_step: u64,
    bad_count: u64,
    too_late: u64,
    wrong: u64,
}

fn counted(mut t: Tally, outcome: Outcome) -> Tally {
    let place = match outcome {
        Outcome::Date => &mut t.dates,
        Outcome::Refused(DateRefusal::BadDate) => &mut t.bad_date,
        Outcome::Refused(DateRefusal::BadStep) => &mut t.bad_step,
        Outcome::Refused(DateRefusal::BadCount) => &mut t.bad_count,
        Outcome::Refused(DateRefusal::TooLate) => &mut t.too_late,
        Outcome::Wrong => &mut t.wrong,
    };
    *place = place.wrapping_add(1);
    t
}

// Every day number, and the 366 past the last.
fn all_days() -> Tally {
    let mut t = Tally::default();
    for k in 0..146_463 {
        t = counted(t, day_compared(k));
    }
    t
}

// Days 0 to 32 of months 0 to 13 of the years 1999 to 2400.
fn all_dates() -> Tally {
    let mut t = Tally::default();
    for i in 0..185_724 {
        t = counted(t, date_compared(1999 + i / 462, i / 33 % 14, i % 33));
    }
    t
}

// Every day of every month of the years 1999 to 2400, four times, with steps of 0 to 121 months and counts of 0 to 52.
fn many_anchors() -> Tally {
    let mut t = Tally::default();
    for i in 0..598_176 {
        t = counted(
            t,
            next_compared(
                1999 + i / 372 % 402,
                i / 31 % 12 + 1,
                i % 31 + 1,
                i / 7 % 122,
                i / 11 % 53,
            ),
        );
    }
    t
}

fn line(rt: &impl Print, what: &[u8], n: u64) -> io::Result<()> {
    rt.write_all(what)?;
    print!(rt; "{n}")
}

fn written(rt: &impl Print, what: &[u8], t: Tally) -> io::Result<()> {
    rt.write_all(what)?;
    line(rt, b": dates ", t.dates)?;
    line(rt, b", bad date ", t.bad_date)?;
    line(rt, b", bad step ", t.bad_step)?;
    line(rt, b", bad count ", t.bad_count)?;
    line(rt, b", too late ", t.too_late)?;
    line(rt, b", wrong ", t.wrong)?;
    rt.write_all(b"\n")
}

fn main(rt: HostRuntime) -> io::Result<()> {
    written(&rt, b"days", all_days())?;
    written(&rt, b"dates", all_dates())?;
    written(&rt, b"next dates", many_anchors())
}
