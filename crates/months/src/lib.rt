// How many days a month has.
#![tactic(auto)]

pub mod starts;

ghost use Rattle.std.specs.Prelude.{◌≡◌};
ghost use Rattle.months.specs.Months.{leap, days_in};

// The days of January, February and so on to December.
const LENGTHS: [u32; 12] = [31, 28, 31, 30, 31, 30, 31, 31, 30, 31, 30, 31];

// Whether a year is a leap year.
pub fn is_leap(year: u32) -> bool
    ensures { result ≡ leap year }
{
    if year % 4 != 0 {
        return false;
    }
    if year % 100 != 0 {
        return true;
    }
    year % 400 == 0
}

// The days of a month, numbered from 1 to 12, of a year. What is no month has none.
pub fn days_in_month(year: u32, month: u32) -> u32
    ensures { result ≡ days_in year month }
{
    if month < 1 {
        return 0;
    }
    if 12 < month {
        return 0;
    }
    if month == 2 {
        if is_leap(year) {
            return 29;
        }
    }
    let place = (month - 1) as usize;
    LENGTHS[place]
}
