// What the last lines without a fault set.
ghost use Rattle.std.specs.Prelude.{◌≡◌, ◌∷◌, []};
ghost use Rattle.inp_lines.specs.Gather.{records_in};
ghost use Rattle.inp_options.specs.Chosen.{latest_after, latest_of, settings};
ghost use Rattle.inp_options.specs.Latest.{AreLatest};
ghost use Rattle.inp_options.specs.OptionLines.{reading_of};
ghost use Rattle.inp_options.specs.Ranges.{IsInRange};

use crate::line::read_line;
use crate::setting::Setting;
use inp_lines::{Line, Reading};
use net_types::{Damping, FlowUnits, InfilKind, Limiter};

/// Of each option, what the last line without a fault sets, and none where no line does.
#[derive(Clone, Copy, Debug)]
pub(crate) struct Latest {
    pub units: Option<FlowUnits>,
    pub infil: Option<InfilKind>,
    pub start_date: Option<i64>,
    pub start_time: Option<i64>,
    pub end_date: Option<i64>,
    pub end_time: Option<i64>,
    pub report_ms: Option<i64>,
    pub wet_ms: Option<i64>,
    pub step_ms: Option<i64>,
    pub variable6: Option<i64>,
    pub ponding: Option<bool>,
    pub damping: Option<Damping>,
    pub limiter: Option<Limiter>,
    pub min_area: Option<i64>,
    pub tolerance: Option<i64>,
    pub max_trials: Option<u32>,
    pub threads: Option<u32>,
    pub extran: Option<bool>,
}

/// What the last of the lines set that are read under these flow units.
pub(crate) fn latest_in(units: FlowUnits, lines: &[Line]) -> Latest
    ensures value { result ≡ latest_of (settings units lines.now) }
    ensures range { AreLatest result }
{
    let mut latest = nothing();
    for line in lines {
        set_by_line(&mut latest, units, line);
    }
    latest
}

// No option is set.
#[tactic(auto, unfolding(crate::specs::Chosen::latest_after))]
fn nothing() -> Latest
    ensures value { result ≡ latest_of [] }
    ensures range { AreLatest result }
{
    Latest {
        units: None,
        infil: None,
        start_date: None,
        start_time: None,
        end_date: None,
        end_time: None,
        report_ms: None,
        wet_ms: None,
        step_ms: None,
        variable6: None,
        ponding: None,
        damping: None,
        limiter: None,
        min_area: None,
        tolerance: None,
        max_trials: None,
        threads: None,
        extran: None,
    }
}

// One line more.
#[tactic(auto, unfolding(crate::specs::Chosen::latest_after))]
fn set_by_line(latest: &mut Latest, units: FlowUnits, line: &Line)
    ensures value { latest.new ≡ latest_after latest.old (records_in (reading_of units line.now)) }
    ensures range { AreLatest latest.old → AreLatest latest.new }
{
    match read_line(units, line) {
        Reading::Other => {}
        Reading::Record(setting) => set(latest, setting),
        Reading::Faulty(_) => {}
    }
}

// One setting more.
#[tactic(auto, unfolding(crate::specs::Chosen::latest_after))]
fn set(latest: &mut Latest, setting: Setting)
    ensures value { latest.new ≡ latest_after latest.old (setting ∷ []) }
    ensures range { IsInRange setting → AreLatest latest.old → AreLatest latest.new }
{
    match setting {
        Setting::Units(units) => latest.units = Some(units),
        Setting::Infiltration(infil) => latest.infil = Some(infil),
        Setting::StartDate(day) => latest.start_date = Some(day),
        Setting::StartTime(ms) => latest.start_time = Some(ms),
        Setting::EndDate(day) => latest.end_date = Some(day),
        Setting::EndTime(ms) => latest.end_time = Some(ms),
        Setting::ReportStep(ms) => latest.report_ms = Some(ms),
        Setting::WetStep(ms) => latest.wet_ms = Some(ms),
        Setting::RoutingStep(ms) => latest.step_ms = Some(ms),
        Setting::VariableStep(part6) => latest.variable6 = Some(part6),
        Setting::Ponding(is_on) => latest.ponding = Some(is_on),
        Setting::Inertia(damping) => latest.damping = Some(damping),
        Setting::NormalFlow(limiter) => latest.limiter = Some(limiter),
        Setting::MinArea(area) => latest.min_area = Some(area),
        Setting::Tolerance(height) => latest.tolerance = Some(height),
        Setting::MaxTrials(most) => latest.max_trials = Some(most),
        Setting::Threads(count) => latest.threads = Some(count),
        Setting::Extran(is_extran) => latest.extran = Some(is_extran),
        Setting::Fixed => {}
    }
}
