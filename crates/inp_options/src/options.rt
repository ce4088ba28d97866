// The options of a run.
ghost use Rattle.std.specs.Prelude.{◌≡◌, ℤ, [], IfOk, OnOk, IfSome, unwrap_or};
ghost use Rattle.fixed_num.specs.Ranges.{IsBetween, IsEven};
ghost use Rattle.inp_lines.specs.Faults.{cut};
ghost use Rattle.inp_lines.specs.Gather.{gather};
ghost use Rattle.inp_lines.specs.Merge.{merged};
ghost use Rattle.inp_options.specs.Latest.{AreLatest};
ghost use Rattle.inp_options.specs.OptionLines.{option_fault};
ghost use Rattle.inp_options.specs.Options.{base_by, options_by, options_of, units_of};
ghost use Rattle.inp_options.specs.Ranges.{IsTrials};
ghost use Rattle.inp_options.specs.Warnings.{warnings_of};
ghost use Rattle.net_types.specs.Ranges.{OptionsInRange};

use crate::chosen::{Latest, latest_in};
use crate::times::moment;
use crate::walk::merge_option_faults;
use crate::warnings::warnings;
use inp_lines::Line;
use net_types::{
    Damping, FlowUnits, InfilKind, Limiter, LineFault, List, Options, OutOfMemory, Text,
};
use std::alloc::Global;

/// Reads the options of an input: of each option the value that its last line without a fault sets, and else its
/// default; and the warnings that they call for, in the report's order. The faults of option lines are merged into the
/// list of faults (User's Manual, section [OPTIONS], and this project's profile).
#[tactic(auto, unfolding(crate::specs::Options::options_of, crate::specs::Options::latest_in, crate::specs::Warnings::warnings_of))]
pub fn read_options(
    alloc: Global,
    lines: &List<Line>,
    faults: &mut List<LineFault>,
) -> Result<(Options, List<Text>), OutOfMemory>
    ensures options { IfOk result (λ read. read.0 ≡ options_of lines.now) }
    ensures warnings { IfOk result (λ read. read.1 ≡ warnings_of lines.now) }
    ensures faults { OnOk result
        (faults.new ≡ cut (merged faults.old (cut (gather (option_fault (units_of lines.now)) [] lines.now)))) }

    // For those who compute with them.
    ensures range { IfOk result (λ read. OptionsInRange read.0) }
{
    let units = units_in(lines.as_slice());
    let latest = latest_in(units, lines.as_slice());
    merge_option_faults(alloc, units, lines, faults)?;
    let warnings = warnings(alloc, &latest, lines.as_slice())?;
    Ok((options_by(units, &latest), warnings))
}

// The flow units under which the whole file is read.
#[tactic(auto, unfolding(crate::specs::Options::units_of))]
fn units_in(lines: &[Line]) -> FlowUnits
    ensures { result ≡ units_of lines.now }
{
    latest_in(FlowUnits::Cfs, lines)
        .units
        .unwrap_or(FlowUnits::Cfs)
}

// The options by what is set, with the default of each.
#[tactic(auto, unfolding(crate::specs::Options::options_by))]
fn options_by(units: FlowUnits, latest: &Latest) -> Options
    requires { AreLatest latest.now }
    ensures value { result ≡ options_by units latest.now }
    ensures range { OptionsInRange result }
{
    let mut options = base_by(units, latest);
    options.variable6 = within_or(latest.variable6, 0);
    options.ponding = latest.ponding.unwrap_or(false);
    options
}

// The options but for ponding and variable steps.
#[tactic(auto, unfolding(crate::specs::Options::base_by))]
fn base_by(units: FlowUnits, latest: &Latest) -> Options
    requires { AreLatest latest.now }
    ensures value { result ≡ base_by units latest.now }
    ensures range { OptionsInRange result }
{
    let first_day = within_or(latest.start_date, 11_688);
    Options {
        units,
        infil: latest.infil.unwrap_or(InfilKind::ModifiedHorton),
        start: moment(first_day, within_or(latest.start_time, 0)),
        finish: moment(
            within_or(latest.end_date, first_day),
            within_or(latest.end_time, 0),
        ),
        report_ms: within_or(latest.report_ms, 900_000),
        wet_ms: within_or(latest.wet_ms, 300_000),
        step_ms: within_or(latest.step_ms, 20_000),
        variable6: 0,
        ponding: false,
        damping: latest.damping.unwrap_or(Damping::Partial),
        limiter: latest.limiter.unwrap_or(Limiter::Both),
        min_area: within_or(latest.min_area, 1_167_420),
        tolerance: within_or(latest.tolerance, 1_524),
        max_trials: trials_or(latest.max_trials, 8),
        threads: latest.threads.unwrap_or(1),
    }
}

// A value or its default: in the range in which both lie.
fn within_or(value: Option<i64>, default: i64) -> i64
    ensures value { result ≡ unwrap_or value default }
    ensures range { (least most : ℤ) → IfSome value (λ v. IsBetween least v most) → IsBetween least default most
        → IsBetween least result most }
    ensures even { IfSome value IsEven → IsEven default → IsEven result }
{
    match value {
        Some(value) => value,
        None => default,
    }
}

// A number of trials or its default.
fn trials_or(value: Option<u32>, default: u32) -> u32
    requires value { IfSome value IsTrials }
    requires default { IsTrials default }
    ensures value { result ≡ unwrap_or value default }
    ensures range { IsTrials result }
{
    match value {
        Some(value) => value,
        None => default,
    }
}
