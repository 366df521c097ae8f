// Another way to compute dates, with which the calendar is compared: eras of 400 years, years that begin in March, and divisions. It has no
// table and no list of month lengths, and the leap rule only as quotients by 4, 100 and the era. The remainders by 400, 1,000 and powers of
// ten cut nothing that the comparison asks; they show that no sum wraps.
#[derive(Clone, Copy, PartialEq, Eq)]
pub struct Civil {
    pub year: u64,
    pub month: u64,
    pub day: u64,
}

const ERA_DAYS: u64 = 146_097;

// The days from 1 March of the year 0 to 1 January 2000.
const TO_2000: u64 = 730_425;

// The day number of a date: counted from 1 March of the year -400 first, so that nothing is negative.
pub fn number_by_eras(date: Civil) -> u64 {
    let in_march_years = (date.year % 10_000 + 400) * 12 + date.month % 100 + 9;
    let march_year = in_march_years / 12 - 1;
    let march_month = in_march_years % 12;
    let in_era = march_year % 400;
    let before = (march_year / 400 * ERA_DAYS + in_era * 365 + in_era / 4 - in_era / 100)
        % 10_000_000;
    let total = before + (153 * march_month + 2) / 5 + date.day % 100;
    total.wrapping_sub(TO_2000 + ERA_DAYS + 1)
}

// The date of a day number.
pub fn civil_by_eras(number: u64) -> Civil {
    let days = number % 1_000_000 + TO_2000;
    let era = days / ERA_DAYS;
    let in_era = days % ERA_DAYS;
    let year_in_era = (in_era - in_era / 1460 + in_era / 36_524 - in_era / 146_096) / 365 % 400;
    let before = year_in_era * 365 + year_in_era / 4 - year_in_era / 100;
    let in_year = in_era.wrapping_sub(before) % 1000;
    let march_month = (5 * in_year + 2) / 153;
    let day = (in_year + 1).wrapping_sub((153 * march_month + 2) / 5);
    let march_year = era * 400 + year_in_era;
    if march_month < 10 {
        return Civil {
            year: march_year,
            month: march_month + 3,
            day,
        };
    }
    Civil {
        year: march_year + 1,
        month: march_month - 9,
        day,
    }
}

// Whether there is such a date: its number has it as its date.
pub fn exists(date: Civil) -> bool {
    2000 <= date.year
        && date.year <= 2399
        && date.month <= 12
        && date.day <= 31
        && civil_by_eras(number_by_eras(date)) == date
}

// The date, or the month's last day where the month is shorter.
pub fn shortened(date: Civil) -> Civil {
    for day in [date.day, 30, 29] {
        let there = Civil { day, ..date };
        if exists(there) {
            return there;
        }
    }
    Civil { day: 28, ..date }
}
