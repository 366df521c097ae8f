// The calendar in numbers: each function asks the calendar one question, puts the answer into a buffer and gives its number. A buffer that is too short is
// refused first of all.
#![tactic(auto)]

ghost use Rattle.std.specs.Prelude.{◌≡◌};
ghost use Rattle.calendar.specs.Dates.{day_number_answer, date_answer};
ghost use Rattle.calendar.specs.Next.{next_answer};
ghost use Rattle.room.specs.Room.{no_room, in_room};
ghost use Rattle.dates.specs.Told.{number_words, date_words, next_words, date_number, number_out, date_out, next_out};

use book::words::write_words;
use calendar::answers::refusal_number;
use calendar::dates::{date_of, day_number, next_date};
use room::NO_ROOM;

// The words that each answer takes.
const NUMBER_WORDS: usize = 1;

const DATE_WORDS: usize = 3;

const NEXT_WORDS: usize = 4;

// The day number of a date.
pub fn tell_number(year: u32, month: u32, day: u32, out: &mut [u32]) -> u32
    ensures value { result ≡ in_room number_words out.old (date_number (day_number_answer year month day)) no_room }
    ensures out_after { out.new ≡ in_room number_words out.old (number_out (day_number_answer year month day) out.old) out.old }
{
    if out.len() < NUMBER_WORDS {
        return NO_ROOM;
    }
    match day_number(year, month, day) {
        Err(refusal) => refusal_number(refusal),
        Ok(dated) => {
            let words = [dated.number];
            write_words(out, 0, &words);
            0
        }
    }
}

// The date of a day number.
pub fn tell_date(day: u32, out: &mut [u32]) -> u32
    ensures value { result ≡ in_room date_words out.old (date_number (date_answer day)) no_room }
    ensures out_after { out.new ≡ in_room date_words out.old (date_out (date_answer day) out.old) out.old }
{
    if out.len() < DATE_WORDS {
        return NO_ROOM;
    }
    match date_of(day) {
        Err(refusal) => refusal_number(refusal),
        Ok(dated) => {
            let date = dated.date;
            let words = [date.year, date.month, date.day];
            write_words(out, 0, &words);
            0
        }
    }
}

// A next date, and its day number.
pub fn tell_next(year: u32, month: u32, day: u32, step: u32, n: u32, out: &mut [u32]) -> u32
    ensures value { result ≡ in_room next_words out.old (date_number (next_answer year month day step n)) no_room }
    ensures out_after { out.new ≡ in_room next_words out.old (next_out (next_answer year month day step n) out.old) out.old }
{
    if out.len() < NEXT_WORDS {
        return NO_ROOM;
    }
    match next_date(year, month, day, step, n) {
        Err(refusal) => refusal_number(refusal),
        Ok(dated) => {
            let date = dated.date;
            let words = [date.year, date.month, date.day, dated.number];
            write_words(out, 0, &words);
            0
        }
    }
}
