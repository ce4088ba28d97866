// The steps of a run in time.
ghost use Rattle.std.specs.Prelude.{◌≡◌, pos, ◌+ℤ◌};
ghost use Rattle.std.specs.Ordering.{int_eq};
ghost use Rattle.fixed_num.specs.Ranges.{IsBetween, IsEven};
ghost use Rattle.run_engine.specs.Times.{AreRunOptions, IsRunStep, IsRunTime};
ghost use Rattle.run_engine.specs.Times.{duration_of, goes_on, length_of, shortest_of, travel_part_of};
ghost use Rattle.run_engine.specs.Times.{wanted_of};

use net_types::Options;

// A routing step in time: the moment at which it finishes, in ms since the start of the run, and its length in ms.
#[derive(Clone, Copy, Debug)]
pub(crate) struct Span {
    pub(crate) finish: i64,
    pub(crate) length: i64,
}

// How long a run lasts, in ms.
fn duration(options: &Options) -> i64
    requires { AreRunOptions options.now }
    ensures { result ≡ duration_of options.now }
{
    options.finish - options.start
}

// Whether a run goes on at a moment, in ms since its start.
pub(crate) fn goes_on(options: &Options, moment: i64) -> bool
    requires { AreRunOptions options.now }
    ensures { result ≡ goes_on options.now moment }
{
    moment < duration(options)
}

// The length of the shortest step, in ms.
fn shortest(options: &Options) -> i64
    requires { AreRunOptions options.now }
    ensures value { result ≡ shortest_of options.now }
    ensures range { IsBetween (pos 0) result options.now.step_ms }
    ensures even { IsEven result }
{
    let share = (duration(options).unsigned_abs() + 99_999_999) / 100_000_000;
    ((2 * share) as i64).max(500).min(options.step_ms)
}

// The length in ms that a step is to have by the least travel time before it.
fn wanted(options: &Options, least: i64) -> i64
    requires options { AreRunOptions options.now }
    requires least { IsBetween (pos 0) least (pos 3_600_000) }
    ensures value { result ≡ wanted_of options.now least }
    ensures range { IsBetween (pos 0) result options.now.step_ms }
    ensures even { IsEven result }
{
    if is_constant(options) {
        options.step_ms
    } else {
        travel_part(options, least)
    }
}

// Whether all steps have the length of the options.
fn is_constant(options: &Options) -> bool
    ensures { result ≡ int_eq options.now.variable6 (pos 0) }
{
    options.variable6 == 0
}

// The length in ms of a step by the least travel time before it.
fn travel_part(options: &Options, least: i64) -> i64
    requires options { AreRunOptions options.now }
    requires least { IsBetween (pos 0) least (pos 3_600_000) }
    ensures value { result ≡ travel_part_of options.now least }
    ensures range { IsBetween (pos 0) result options.now.step_ms }
    ensures even { IsEven result }
{
    let half = (options.variable6 * least).unsigned_abs() / 2_000_000;
    ((2 * half) as i64)
        .max(shortest(options))
        .min(options.step_ms)
}

// The step from the state at this moment, in ms since the start, with this least travel time in ms.
pub(crate) fn next_span(options: &Options, moment: i64, least: i64) -> Span
    requires options { AreRunOptions options.now }
    requires moment { IsRunTime options.now moment }
    requires least { IsBetween (pos 0) least (pos 3_600_000) }
    ensures length { result.length ≡ length_of options.now moment least }
    ensures finish { result.finish ≡ moment +ℤ length_of options.now moment least }
    ensures range { IsRunStep options.now result.finish result.length }
{
    let length = wanted(options, least).min(duration(options) - moment);
    Span {
        finish: moment + length,
        length,
    }
}
