// The comparisons: the calendar's answer to one question, and what the eras say.
use crate::eras::{Civil, civil_by_eras, exists, number_by_eras, shortened};
use calendar::answers::{DateRefusal, Dated};
use calendar::dates::{date_of, day_number, is_date, next_date};

// What an answer is counted as: a date, a refusal, or wrong.
#[derive(Clone, Copy)]
pub enum Outcome {
    Date,
    Refused(DateRefusal),
    Wrong,
}

// A date and its day number, in the numbers of the eras.
fn told(dated: Dated) -> (Civil, u64) {
    let date = dated.date;
    let civil = Civil {
        year: date.year as u64,
        month: date.month as u64,
        day: date.day as u64,
    };
    (civil, dated.number as u64)
}

// What the calendar's answer counts as, where the eras say what is due: a date with its day number, or a refusal.
fn compared(answer: Result<Dated, DateRefusal>, due: Result<(Civil, u64), DateRefusal>) -> Outcome {
    if answer.map(told) != due {
        return Outcome::Wrong;
    }
    match due {
        Ok(_) => Outcome::Date,
        Err(refusal) => Outcome::Refused(refusal),
    }
}

// A day number: its date, and that date's number.
pub fn day_compared(k: u32) -> Outcome {
    let answer = date_of(k);
    let number = k as u64;
    let civil = civil_by_eras(number);
    if 2399 < civil.year {
        return compared(answer, Err(DateRefusal::TooLate));
    }
    if number_by_eras(civil) != number {
        return Outcome::Wrong;
    }
    compared(answer, Ok((civil, number)))
}

// A date, or what is none: whether it exists, and its number.
pub fn date_compared(year: u32, month: u32, day: u32) -> Outcome {
    let civil = Civil {
        year: year as u64,
        month: month as u64,
        day: day as u64,
    };
    let there = exists(civil);
    if is_date(year, month, day) != there {
        return Outcome::Wrong;
    }
    let answer = day_number(year, month, day);
    if !there {
        return compared(answer, Err(DateRefusal::BadDate));
    }
    compared(answer, Ok((civil, number_by_eras(civil))))
}

// The months of n steps, one step after the other.
fn months_of(step: u32, n: u32) -> u64 {
    let mut far: u64 = 0;
    for _ in 0..n {
        far = far.wrapping_add(step as u64);
    }
    far
}

// An anchor, a step and a count: the refusal that is due, or the n-th next date and its number.
pub fn next_compared(year: u32, month: u32, day: u32, step: u32, n: u32) -> Outcome {
    let answer = next_date(year, month, day, step, n);
    let anchor = Civil {
        year: year as u64,
        month: month as u64,
        day: day as u64,
    };
    if !exists(anchor) {
        return compared(answer, Err(DateRefusal::BadDate));
    }
    if step == 0 || 120 < step {
        return compared(answer, Err(DateRefusal::BadStep));
    }
    if n == 0 {
        return compared(answer, Err(DateRefusal::BadCount));
    }
    let far = months_of(step, n).wrapping_add(anchor.month + 11);
    let then = (far / 12).wrapping_add(anchor.year).wrapping_sub(1);
    if 2399 < then {
        return compared(answer, Err(DateRefusal::TooLate));
    }
    let civil = shortened(Civil {
        year: then,
        month: far % 12 + 1,
        day: anchor.day,
    });
    compared(answer, Ok((civil, number_by_eras(civil))))
}
