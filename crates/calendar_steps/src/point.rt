ghost use Rattle.std.specs.Prelude.{◌≡◌, ◌+ℤ◌};
ghost use Rattle.calendar_steps.specs.Moment.{point_on, IsCalendarMoment, IsPoint};

use crate::civil::date_of;

const DAY: i64 = 86_400_000;

/// What the calendar shows at a moment: the month from 1 to 12, the weekday from 1 for Sunday to 7, and the ms since
/// midnight.
#[derive(Clone, Copy, Debug)]
pub struct CalendarPoint {
    pub month: u32,
    pub weekday: u32,
    pub ms_of_day: i64,
}

/// The calendar point `moment` ms after `start`, which is in ms from 1970-01-01 00:00:00 of the civil calendar (this
/// project's profile).
pub fn point_at(start: i64, moment: i64) -> CalendarPoint
    requires { IsCalendarMoment (start +ℤ moment) }
    ensures range { IsPoint result }
    ensures value { result ≡ point_on (start +ℤ moment) }
{
    let now = start + moment;
    let found = date_of(now.div_euclid(DAY));
    CalendarPoint {
        month: found.month() as u32,
        weekday: found.weekday().to_sunday_one_offset() as u32,
        ms_of_day: now.rem_euclid(DAY),
    }
}
