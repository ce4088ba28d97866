// The values of dates and times.
ghost use Rattle.std.specs.Prelude.{◌≡◌, pos, neg_ℤ, IfOk};
ghost use Rattle.fixed_num.specs.Ranges.{IsBetween, IsEven};
ghost use Rattle.inp_lines.specs.Readings.{needed_of};
ghost use Rattle.inp_options.specs.Values.{moment_of, within};
ghost use Rattle.inp_values.specs.CalendarDate.{date_of};
ghost use Rattle.inp_values.specs.Clock.{clock_of, time_of_day_of};
ghost use Rattle.inp_values.specs.Duration.{seconds_of};

use crate::values::{fault, in_range};
use inp_lines::Fault;
use inp_values::{clock, date, seconds, time_of_day};
use net_types::FaultKind;

/// The day of a date.
pub(crate) fn day(text: &[u8]) -> Result<i64, Fault>
    ensures value { result ≡ needed_of (date_of text.now) FaultKind.InvalidTime 1 }
    ensures range { IfOk result (λ day. IsBetween (neg_ℤ (pos 25_567)) day (pos 84_370)) }
{
    match date(text) {
        Some(day) => Ok(day),
        None => Err(fault(FaultKind::InvalidTime)),
    }
}

/// The time of day of a clock.
pub(crate) fn time(text: &[u8]) -> Result<i64, Fault>
    ensures value { result ≡ needed_of (time_of_day_of text.now) FaultKind.InvalidTime 1 }
    ensures range { IfOk result (λ ms. IsBetween (pos 0) ms (pos 86_399_999)) }
    ensures even { IfOk result IsEven }
{
    match time_of_day(text) {
        Some(ms) => Ok(ms),
        None => Err(fault(FaultKind::InvalidTime)),
    }
}

/// A step that is written as a clock, from a second on.
pub(crate) fn clock_step(text: &[u8], most: i64) -> Result<i64, Fault>
    ensures value { result ≡ needed_of (within (pos 1_000) most (clock_of text.now)) FaultKind.InvalidTime 1 }
    ensures range { IfOk result (λ ms. IsBetween (pos 1_000) ms most) }
{
    in_range(clock(text), 1_000, most, FaultKind::InvalidTime)
}

/// The routing step.
pub(crate) fn routing_step(text: &[u8]) -> Result<i64, Fault>
    ensures value { result ≡ needed_of (within (pos 10) (pos 3_600_000) (seconds_of text.now)) FaultKind.InvalidTime 1 }
    ensures range { IfOk result (λ ms. IsBetween (pos 10) ms (pos 3_600_000)) }
    ensures even { IfOk result IsEven }
{
    in_range(seconds(text), 10, 3_600_000, FaultKind::InvalidTime)
}

/// The moment of a day and a time of day, in ms from 1970-01-01 00:00:00.
pub(crate) fn moment(day: i64, time: i64) -> i64
    requires day { IsBetween (neg_ℤ (pos 25_567)) day (pos 84_370) }
    requires time { IsBetween (pos 0) time (pos 86_399_999) }
    ensures value { result ≡ moment_of day time }
    ensures range { IsBetween (neg_ℤ (pos 2_208_988_800_000)) result (pos 7_289_654_399_999) }
    ensures even { IsEven time → IsEven result }
{
    day * 86_400_000 + time
}
