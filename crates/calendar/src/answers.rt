// What the calendar answers.
ghost use Rattle.std.specs.Prelude.{◌≡◌};
ghost use Rattle.calendar.specs.Dates.{refusal_number};

// A date; the months are numbered from 1 to 12.
#[derive(Clone, Copy)]
pub struct Date {
    pub year: u32,
    pub month: u32,
    pub day: u32,
}

// A date with its day number.
#[derive(Clone, Copy)]
pub struct Dated {
    pub date: Date,
    pub number: u32,
}

// Why there is no date, in the order in which it is looked for. A day number past 31 December 2399 is too late, too.
#[derive(Clone, Copy, PartialEq, Eq)]
pub enum DateRefusal {
    BadDate,
    BadStep,
    BadCount,
    TooLate,
}

// The number of a refusal, 1 to 4.
pub fn refusal_number(refusal: DateRefusal) -> u32
    ensures { result ≡ refusal_number refusal }
{
    match refusal {
        DateRefusal::BadDate => 1,
        DateRefusal::BadStep => 2,
        DateRefusal::BadCount => 3,
        DateRefusal::TooLate => 4,
    }
}
