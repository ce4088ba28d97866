ghost use Rattle.std.specs.Prelude.{◌≡◌, ℤ, pos, IfSome, IfNone};
ghost use Rattle.calendar_steps.specs.Calendar.{IsCalendarDay};
ghost use Rattle.inp_values.specs.CalendarDate.{IsDate, date_of, date_after, year_of, numbered};

use crate::wholes::{field, split_digits};
use calendar_steps::day_of;

/// The days from 1970-01-01 to the date `m/d/yyyy` or `m-d-yyyy`, and none for every other text: month first, one or
/// two digits of month and day, four of the year, a real day of the years 1900 to 2100 (this project's profile).
pub fn date(text: &[u8]) -> Option<i64>
    ensures some { IfSome result (IsDate text.now) }
    ensures none { IfNone result ((number : ℤ) → ¬ (IsDate text.now number)) }
    ensures value { result ≡ date_of text.now }
    ensures range { IfSome result IsCalendarDay }
{
    let (front, rest) = split_digits(text);
    date_after(field(front, 1, 2), rest)
}

/// The number of the day that a month, and a day and a year behind a mark, name.
fn date_after(month: Option<u32>, text: &[u8]) -> Option<i64>
    ensures value { result ≡ date_after month text.now }
    ensures range { IfSome result IsCalendarDay }
{
    match text {
        [mark @ (b'/' | b'-'), rest @ ..] => {
            let (front, rest) = split_digits(rest);
            number_of(month, field(front, 1, 2), year(*mark, rest))
        }
        _ => None,
    }
}

/// The year behind this mark.
fn year(mark: u8, text: &[u8]) -> Option<u32>
    ensures { result ≡ year_of mark text.now }
{
    match text {
        [first, rest @ ..] if *first == mark => field(rest, 4, 4),
        _ => None,
    }
}

/// The number of a real day up to the year 2100.
fn number_of(month: Option<u32>, day: Option<u32>, year: Option<u32>) -> Option<i64>
    ensures value { result ≡ numbered month day year }
    ensures range { IfSome result IsCalendarDay }
{
    let Some(month) = month else {
        return None;
    };
    let Some(day) = day else {
        return None;
    };
    let Some(year) = year else {
        return None;
    };
    if year > 2100 {
        return None;
    }
    day_of(year, month, day)
}
