// The calendar as C calls it: each function asks the calendar one question and gives the number of its answer.
ghost use Rattle.std.specs.Prelude.{◌≡◌};
ghost use Rattle.loops.specs.Loops.{pick};
ghost use Rattle.calendar.specs.Dates.{is_date, day_number_answer, date_answer};
ghost use Rattle.calendar.specs.Next.{next_answer};
ghost use Rattle.room.specs.Room.{no_room, in_room};
ghost use Rattle.dates.specs.Told.{number_words, date_words, next_words, date_number, number_out, date_out, next_out};

use calendar::dates::is_date;
use dates::{tell_date, tell_next, tell_number};

#[unsafe(no_mangle)]
pub extern "C" fn depot_is_date(year: u32, month: u32, day: u32) -> u32
    ensures { result ≡ pick (is_date year month day) 1 0 }
{
    if is_date(year, month, day) {
        return 1;
    }
    0
}

#[unsafe(no_mangle)]
pub extern "C" fn depot_day_number(year: u32, month: u32, day: u32, out: &mut [u32]) -> u32
    ensures value { result ≡ in_room number_words out.old (date_number (day_number_answer year month day)) no_room }
    ensures out_after { out.new ≡ in_room number_words out.old (number_out (day_number_answer year month day) out.old) out.old }
{
    tell_number(year, month, day, out)
}

#[unsafe(no_mangle)]
pub extern "C" fn depot_date_of(day: u32, out: &mut [u32]) -> u32
    ensures value { result ≡ in_room date_words out.old (date_number (date_answer day)) no_room }
    ensures out_after { out.new ≡ in_room date_words out.old (date_out (date_answer day) out.old) out.old }
{
    tell_date(day, out)
}

#[unsafe(no_mangle)]
pub extern "C" fn depot_next_date(
    year: u32,
    month: u32,
    day: u32,
    step: u32,
    n: u32,
    out: &mut [u32],
) -> u32
    ensures value { result ≡ in_room next_words out.old (date_number (next_answer year month day step n)) no_room }
    ensures out_after { out.new ≡ in_room next_words out.old (next_out (next_answer year month day step n) out.old) out.old }
{
    tell_next(year, month, day, step, n, out)
}
