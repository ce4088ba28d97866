// The factors of time patterns.
ghost use Rattle.std.specs.Prelude.{◌≡◌, ◌<◌};
ghost use Rattle.std.specs.List.{All};
ghost use Rattle.calendar_steps.specs.Moment.{IsPoint};
ghost use Rattle.fixed_num.specs.Ranges.{IsCoefficient};
ghost use Rattle.net_types.specs.Ranges.{PatternInRange};
ghost use Rattle.time_series.specs.Patterns.{factor_at, hour_of, is_hourly, is_of_weekends, is_weekend};
ghost use Rattle.time_series.specs.Patterns.{kind_factor, pattern_factor_of, weekend_factor};

use calendar_steps::CalendarPoint;
use net_types::{Pattern, PatternKind};

/// The factor of a pattern at a point of the calendar, in millionths, 0 to 10^8.
///
/// A pattern's factors go by the month, by the day of the week from Sunday on, or by the hour of the day; one of
/// weekends counts as 1 from Monday to Friday. A factor that is missing is 1. `at` is what the calendar shows at a
/// moment. Source: User's Manual, section [PATTERNS].
pub fn pattern_factor(pattern: &Pattern, at: &CalendarPoint) -> i64
    requires pattern { PatternInRange pattern.now }
    requires at { IsPoint at.now }
    ensures value { result ≡ pattern_factor_of pattern.now at.now }
    ensures range { IsCoefficient result }
{
    kind_factor(pattern.kind, pattern.factors6.as_slice(), at)
}

// The factor of a pattern of this kind.
pub(crate) fn kind_factor(kind: PatternKind, factors6: &[i64], at: &CalendarPoint) -> i64
    requires factors { All IsCoefficient factors6.now }
    requires at { IsPoint at.now }
    ensures value { result ≡ kind_factor kind factors6.now at.now }
    ensures range { IsCoefficient result }
{
    match kind {
        PatternKind::Monthly => factor_at(factors6, at.month - 1),
        PatternKind::Daily => factor_at(factors6, at.weekday - 1),
        PatternKind::Hourly => factor_at(factors6, hour(at)),
        PatternKind::Weekend => weekend_factor(factors6, at),
    }
}

// The factor of a place.
fn factor_at(factors6: &[i64], place: u32) -> i64
    requires { All IsCoefficient factors6.now }
    ensures value { result ≡ factor_at factors6.now place }
    ensures range { IsCoefficient result }
{
    let place = place as usize;
    if place < factors6.len() {
        return factors6[place];
    }
    1_000_000
}

// The factor of a pattern of weekends.
fn weekend_factor(factors6: &[i64], at: &CalendarPoint) -> i64
    requires factors { All IsCoefficient factors6.now }
    requires at { IsPoint at.now }
    ensures value { result ≡ weekend_factor factors6.now at.now }
    ensures range { IsCoefficient result }
{
    if is_weekend(at) {
        return factor_at(factors6, hour(at));
    }
    1_000_000
}

// The hour of the day, from 0.
fn hour(at: &CalendarPoint) -> u32
    requires { IsPoint at.now }
    ensures { result ≡ hour_of at.now }
{
    (at.ms_of_day as u64 / 3_600_000) as u32
}

// Whether it is Saturday or Sunday.
pub(crate) fn is_weekend(at: &CalendarPoint) -> bool
    ensures { result ≡ is_weekend at.now }
{
    at.weekday == 1 || at.weekday == 7
}

// Whether a pattern is one of hours.
pub(crate) fn is_hourly(kind: PatternKind) -> bool
    ensures { result ≡ is_hourly kind }
{
    match kind {
        PatternKind::Hourly => true,
        PatternKind::Monthly | PatternKind::Daily | PatternKind::Weekend => false,
    }
}

// Whether a pattern is one of weekends.
pub(crate) fn is_of_weekends(kind: PatternKind) -> bool
    ensures { result ≡ is_of_weekends kind }
{
    match kind {
        PatternKind::Weekend => true,
        PatternKind::Monthly | PatternKind::Daily | PatternKind::Hourly => false,
    }
}
