ghost use Rattle.std.specs.Prelude.{◌≡◌, ◌↔◌, pos, IsSome, IfSome};
ghost use Rattle.calendar_steps.specs.Calendar.{day_number, number_if_real, IsRealDay, IsCalendarDay};
ghost use Rattle.calendar_steps.specs.CivilDay.{civil_on, IsCivilOf};
ghost use Rattle.jiff.specs.Words.{epoch_day, IsYmd};

use jiff::civil::{Date, date};

/// A day of the calendar: its year, its month from 1 to 12 and its place in the month from 1.
#[derive(Clone, Copy, Debug)]
pub struct Civil {
    pub year: u32,
    pub month: u32,
    pub day: u32,
}

/// The days from 1970-01-01 to a day of the years 1900 to 2200, negative before 1970, and none where the calendar has
/// no such day or its year is another (this project's profile).
pub fn day_of(year: u32, month: u32, day: u32) -> Option<i64>
    ensures real { IsSome result ↔ IsRealDay year month day }
    ensures number { IfSome result (λ number. number ≡ day_number year month day) }
    ensures range { IfSome result IsCalendarDay }
    ensures value { result ≡ number_if_real year month day }
{
    match real_date(year, month, day) {
        Some(found) => Some(found.to_plain().to_unix_epoch_day() as i64),
        None => None,
    }
}

/// The date of `jiff` with these parts, where it is a real day.
fn real_date(year: u32, month: u32, day: u32) -> Option<Date>
    ensures real { IsSome result ↔ IsRealDay year month day }
    ensures parts { IfSome result (IsYmd (pos year) (pos month) (pos day)) }
{
    if year < 1900 || year > 2200 || month > 12 || day > 31 {
        return None;
    }
    match Date::new(year as i16, month as i8, day as i8) {
        Ok(found) => Some(found),
        Err(_) => None,
    }
}

/// The day with that number, counted from 0 for 1970-01-01, in the years 1900 to 2200 (this project's profile).
pub fn civil_of(day: i64) -> Civil
    requires { IsCalendarDay day }
    ensures parts { IsCivilOf day result }
    ensures value { result ≡ civil_on day }
{
    let found = date_of(day);
    Civil {
        year: found.year() as u32,
        month: found.month() as u32,
        day: found.day() as u32,
    }
}

/// The same as a date of `jiff`.
pub(crate) fn date_of(day: i64) -> Date
    requires { IsCalendarDay day }
    ensures { epoch_day result ≡ day }
{
    let epoch = date(1970, 1, 1);
    Date::from_plain(epoch.to_plain().checked_add(day).unwrap())
}
