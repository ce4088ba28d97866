// What the lines of inflow add.
ghost use Rattle.std.specs.Prelude.{◌≡◌, ◌*◌, ◌^◌, ◌<◌, ◌≤◌, length, IfSome};
ghost use Rattle.std.specs.List.{All};
ghost use Rattle.calendar_steps.specs.Moment.{IsPoint};
ghost use Rattle.fixed_num.specs.Ranges.{IsCoefficient, IsRaw, IsWithin};
ghost use Rattle.net_types.specs.Ranges.{DryFlowInRange, InflowInRange, PatternInRange, SeriesInRange};
ghost use Rattle.net_types.specs.Records.{pattern_at};
ghost use Rattle.net_types.specs.Sound.{DryFlowNames, InflowNames, IsSound};
ghost use Rattle.time_series.specs.Patterns.{is_of_weekends};
ghost use Rattle.time_series.specs.Inflows.{beside_weekends, dry_amount, flow_of, has_weekends, inflow_amount};
ghost use Rattle.time_series.specs.Inflows.{pattern_part, series_part, times6 as times6_of};

use crate::patterns::{is_hourly, is_of_weekends, is_weekend, pattern_factor};
use crate::series::value_between;
use calendar_steps::CalendarPoint;
use fixed_num::quo;
use inp_values::{Quantity, unit_of};
use net_types::{DryFlow, FlowUnits, Inflow, Pattern, Project, Series};

// What an inflow adds at its node, in cm³/s.
pub(crate) fn inflow_flow(
    project: &Project,
    inflow: &Inflow,
    moment: i64,
    at: &CalendarPoint,
) -> i128
    requires sound { IsSound project.now }
    requires range { InflowInRange inflow.now }
    requires names { InflowNames project.now inflow.now }
    requires at { IsPoint at.now }
    ensures value { result ≡ flow_of project.now.options.units (inflow_amount project.now moment at.now inflow.now) }
    ensures range { IsWithin (10 ^ 30) result }
{
    flow_of(
        project.options.units,
        inflow_amount(project, inflow, moment, at),
    )
}

// Scale times the series, and the baseline times the pattern's factor, in millionths.
fn inflow_amount(project: &Project, inflow: &Inflow, moment: i64, at: &CalendarPoint) -> i128
    requires sound { IsSound project.now }
    requires range { InflowInRange inflow.now }
    requires names { InflowNames project.now inflow.now }
    requires at { IsPoint at.now }
    ensures value { result ≡ inflow_amount project.now moment at.now inflow.now }
    ensures range { IsWithin (10 ^ 25) result }
{
    let series = series_part(project.series.as_slice(), inflow.series, moment);
    let factor = pattern_part(project.patterns.as_slice(), inflow.pattern, at);
    scaled(inflow.scale6, series) + scaled(inflow.base6, factor)
}

// A raw amount in millionths times a raw factor in millionths.
pub(crate) fn scaled(amount6: i64, factor6: i64) -> i128
    requires amount { IsRaw amount6 }
    requires factor { IsRaw factor6 }
    ensures value { result ≡ times6_of amount6 factor6 }
    ensures range { IsWithin (10 ^ 24) result }
{
    times6(amount6 as i128, factor6)
}

// The value of an inflow's series, in millionths.
fn series_part(series: &[Series], number: Option<u32>, moment: i64) -> i64
    requires ranges { All SeriesInRange series.now }
    requires there { IfSome number (λ k. k < length series.now) }
    ensures value { result ≡ series_part series.now number moment }
    ensures range { IsRaw result }
{
    match number {
        Some(k) => value_between(&series[k as usize], moment, true),
        None => 0,
    }
}

// The factor of an inflow's pattern, in millionths.
fn pattern_part(patterns: &[Pattern], number: Option<u32>, at: &CalendarPoint) -> i64
    requires ranges { All PatternInRange patterns.now }
    requires there { IfSome number (λ k. k < length patterns.now) }
    requires at { IsPoint at.now }
    ensures value { result ≡ pattern_part patterns.now number at.now }
    ensures range { IsCoefficient result }
{
    match number {
        Some(k) => pattern_factor(&patterns[k as usize], at),
        None => 1_000_000,
    }
}

// What a dry weather flow adds at its node, in cm³/s.
pub(crate) fn dry_flow(project: &Project, dry: &DryFlow, at: &CalendarPoint) -> i128
    requires sound { IsSound project.now }
    requires range { DryFlowInRange dry.now }
    requires names { DryFlowNames project.now dry.now }
    requires at { IsPoint at.now }
    ensures value { result ≡ flow_of project.now.options.units (dry_amount project.now.patterns at.now dry.now) }
    ensures range { IsWithin (10 ^ 30) result }
{
    flow_of(
        project.options.units,
        dry_amount(project.patterns.as_slice(), dry, at),
    )
}

// The base of a line changed by each of its factors in turn, in millionths.
fn dry_amount(patterns: &[Pattern], dry: &DryFlow, at: &CalendarPoint) -> i128
    requires ranges { All PatternInRange patterns.now }
    requires range { DryFlowInRange dry.now }
    requires names { All (λ k. k < length patterns.now) dry.now.patterns }
    requires at { IsPoint at.now }
    ensures value { result ≡ dry_amount patterns.now at.now dry.now }
    ensures range { IsWithin (10 ^ 23) result }
{
    let numbers = dry.patterns.as_slice();
    let beside = has_weekends(patterns, numbers);
    let mut amount = dry.base6 as i128;
    for number in numbers {
        amount = times6(amount, line_factor(patterns, *number, beside, at));
    }
    amount
}

// Whether a line has a pattern of weekends.
fn has_weekends(patterns: &[Pattern], numbers: &[u32]) -> bool
    requires { All (λ k. k < length patterns.now) numbers.now }
    ensures { result ≡ has_weekends patterns.now numbers.now }
{
    numbers.iter().any(|k| names_weekends(patterns, *k))
}

// Whether a pattern is one of weekends.
fn names_weekends(patterns: &[Pattern], number: u32) -> bool
    requires { number < length patterns.now }
    ensures { result ≡ is_of_weekends (pattern_at patterns.now number).kind }
{
    is_of_weekends(patterns[number as usize].kind)
}

// The factor of one of a line's patterns.
fn line_factor(patterns: &[Pattern], number: u32, beside: bool, at: &CalendarPoint) -> i64
    requires ranges { All PatternInRange patterns.now }
    requires there { number < length patterns.now }
    requires at { IsPoint at.now }
    ensures value { result ≡ beside_weekends beside (pattern_at patterns.now number) at.now }
    ensures range { IsCoefficient result }
{
    beside_weekends(beside, &patterns[number as usize], at)
}

// The same of a pattern.
pub(crate) fn beside_weekends(beside: bool, pattern: &Pattern, at: &CalendarPoint) -> i64
    requires pattern { PatternInRange pattern.now }
    requires at { IsPoint at.now }
    ensures value { result ≡ beside_weekends beside pattern.now at.now }
    ensures range { IsCoefficient result }
{
    if beside && is_hourly(pattern.kind) && is_weekend(at) {
        return 1_000_000;
    }
    pattern_factor(pattern, at)
}

// An amount in millionths times a factor in millionths.
#[tactic(auto, using(fixed_num::proofs::Bounds::casts), unfolding(crate::specs::Inflows::times6))]
fn times6(amount: i128, factor6: i64) -> i128
    requires amount { IsWithin (10 ^ 21) amount }
    requires factor { IsRaw factor6 }
    ensures { result ≡ times6_of amount factor6 }
{
    quo(amount * factor6 as i128, 1_000_000)
}

// Millionths of the flow unit, in cm³/s.
pub(crate) fn flow_of(units: FlowUnits, amount: i128) -> i128
    requires { IsWithin (10 ^ 25) amount }
    ensures value { result ≡ flow_of units amount }
    ensures range { IsWithin (10 ^ 30) result }
{
    let unit = unit_of(units, Quantity::Flow);
    quo(amount * unit.num as i128, unit.den as i128 * 1_000_000)
}
