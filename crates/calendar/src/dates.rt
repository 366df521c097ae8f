// Dates that exist, their day numbers, and the dates that follow an anchor in steps of months. Day 0 is 1 January 2000.
ghost use Rattle.std.specs.Prelude.{◌≡◌, true, ◌≤◌, ◌<◌, Ok};
ghost use Rattle.months.specs.Months.{months, Starts};
ghost use Rattle.paper.specs.Calls.{last_day};
ghost use Rattle.calendar.specs.Dates.{is_date, month_index, date_in, month_on, day_number_answer, date_answer};
ghost use Rattle.calendar.specs.Next.{is_step, day_within, numbered, next_answer};

use crate::answers::{Date, DateRefusal, Dated};
use months::days_in_month;
use months::starts::{MONTHS, month_start, month_starts};
use paper::answer::LAST_DAY;

const FIRST_YEAR: u32 = 2000;

const LAST_YEAR: u32 = 2399;

const LONGEST_STEP: u32 = 120;

// Whether there is such a date.
#[tactic(auto, using(std::proofs::lemmas::Bool::Decides::nat_tests), unfolding(crate::specs::Dates::is_date))]
pub fn is_date(year: u32, month: u32, day: u32) -> bool
    ensures { result ≡ is_date year month day }
{
    FIRST_YEAR <= year && year <= LAST_YEAR && 1 <= day && day <= days_in_month(year, month)
}

// The month of a date, counted from January 2000 as 0.
fn index_of(year: u32, month: u32, day: u32) -> u32
    requires { is_date year month day ≡ true }
    ensures { result ≡ month_index year month }
{
    (year - FIRST_YEAR) * 12 + (month - 1)
}

// A day of a month that is counted from January 2000 as 0.
fn date_in(month: u32, day: u32) -> Date
    requires { month < months }
    ensures { result ≡ date_in month day }
{
    Date {
        year: FIRST_YEAR + month / 12,
        month: month % 12 + 1,
        day,
    }
}

// The month that a day lies in, counted from January 2000 as 0: of the months, given by their starts, half are left out again and again. `partition_point` looks at
// a start once more, after its halving: 14 times, where 13 do.
fn month_on(starts: &[u32], day: u32) -> usize
    requires { Starts starts.now × (day ≤ last_day) }
    ensures { result ≡ month_on day }
{
    let mut low = 0;
    let mut high = MONTHS as usize;
    while low + 1 < high {
        let middle = (low + high) / 2;
        if starts[middle] <= day {
            low = middle;
        } else {
            high = middle;
        }
    }
    low
}

// A date with its day number, from 0 to 146,096.
pub fn day_number(year: u32, month: u32, day: u32) -> Result<Dated, DateRefusal>
    ensures { result ≡ day_number_answer year month day }
{
    if !is_date(year, month, day) {
        return Err(DateRefusal::BadDate);
    }
    let start = month_start(index_of(year, month, day));
    Ok(Dated {
        date: Date { year, month, day },
        number: start + (day - 1),
    })
}

// The date of a day number.
pub fn date_of(day: u32) -> Result<Dated, DateRefusal>
    ensures { result ≡ date_answer day }
{
    if LAST_DAY < day {
        return Err(DateRefusal::TooLate);
    }
    let starts = month_starts();
    let month = month_on(&starts, day);
    let start = starts[month];
    Ok(Dated {
        date: date_in(month as u32, day - start + 1),
        number: day,
    })
}

// A day of a month that is counted from January 2000 as 0, or the month's last day where the month is shorter, with its day number.
fn within(month: u32, day: u32) -> Dated
    requires { (month < months) × (1 ≤ day) }
    ensures { Ok result ≡ numbered (date_in month (day_within month day)) }
{
    let last = days_in_month(FIRST_YEAR + month / 12, month % 12 + 1);
    let there = day.min(last);
    Dated {
        date: date_in(month, there),
        number: month_start(month) + (there - 1),
    }
}

// Whether dates may follow each other in steps of so many months.
#[tactic(auto, using(std::proofs::lemmas::Bool::Decides::nat_tests), unfolding(crate::specs::Next::is_step))]
fn is_step(step: u32) -> bool
    ensures { result ≡ is_step step }
{
    1 <= step && step <= LONGEST_STEP
}

// The n-th date after an anchor in steps of months: the anchor's day, or the month's last day where that month is shorter.
pub fn next_date(year: u32, month: u32, day: u32, step: u32, n: u32) -> Result<Dated, DateRefusal>
    ensures { result ≡ next_answer year month day step n }
{
    if !is_date(year, month, day) {
        return Err(DateRefusal::BadDate);
    }
    if !is_step(step) {
        return Err(DateRefusal::BadStep);
    }
    if n == 0 {
        return Err(DateRefusal::BadCount);
    }
    let far = index_of(year, month, day) as u64 + step as u64 * n as u64;
    if MONTHS as u64 <= far {
        return Err(DateRefusal::TooLate);
    }
    Ok(within(far as u32, day))
}
