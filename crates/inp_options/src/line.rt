// What an option line sets.
ghost use Rattle.std.specs.Prelude.{◌≡◌, IfOk, cond};
ghost use Rattle.inp_lines.specs.Readings.{is_long, reading_from};
ghost use Rattle.inp_options.specs.OptionLines.{reading_of, setting_by, setting_of};
ghost use Rattle.inp_options.specs.Ranges.{IsInRange, IsReading};

use crate::keywords::{
    damping_named, infiltration_named, is_dynamic_wave, limiter_named, method_named, offsets_named,
    units_named,
};
use crate::names::{OptionKind, option_named};
use crate::setting::Setting;
use crate::times::{clock_step, day, routing_step, time};
use crate::values::{
    area, built, is_zero, keyword, off, raw, tolerance, trials, value, variable_step,
};
use inp_lines::{Fault, Line, Reading, SectionName, is_too_long, needed, too_few};
use inp_values::{clock, whole, yes_no};
use net_types::{FaultKind, FlowUnits, Text};

/// What a line is read as under these flow units.
#[tactic(auto, unfolding(crate::specs::OptionLines::reading_of))]
pub(crate) fn read_line(units: FlowUnits, line: &Line) -> Reading<Setting>
    ensures value { result ≡ reading_of units line.now }
    ensures range { IsReading result }
{
    match line.section {
        SectionName::Options => read_option(units, line),
        _ => Reading::Other,
    }
}

// What a line of the section is read as.
fn read_option(units: FlowUnits, line: &Line) -> Reading<Setting>
    ensures value { result ≡ cond (is_long line.now) Reading.Other (reading_from (setting_of units line.now.tokens)) }
    ensures range { IsReading result }
{
    if is_too_long(line) {
        return Reading::Other;
    }
    match setting_of(units, line.tokens.as_slice()) {
        Ok(setting) => Reading::Record(setting),
        Err(fault) => Reading::Faulty(fault),
    }
}

// What the tokens of an option line set.
fn setting_of(units: FlowUnits, tokens: &[Text]) -> Result<Setting, Fault>
    ensures value { result ≡ setting_of units tokens.now }
    ensures range { IfOk result IsInRange }
{
    let [name, text, ..] = tokens else {
        return Err(too_few(tokens));
    };
    let option = needed(option_named(name.as_slice()), FaultKind::InvalidKeyword, 0)?;
    setting_by(units, option, text.as_slice())
}

// What the second token sets for an option.
#[tactic(auto, unfolding(crate::specs::OptionLines::setting_by))]
fn setting_by(units: FlowUnits, option: OptionKind, text: &[u8]) -> Result<Setting, Fault>
    ensures value { result ≡ setting_by units option text.now }
    ensures range { IfOk result IsInRange }
{
    match option {
        OptionKind::FlowUnits => Ok(Setting::Units(keyword(units_named(text))?)),
        OptionKind::Infiltration => {
            Ok(Setting::Infiltration(value(infiltration_named(text), FaultKind::NotInProfile)?))
        }
        OptionKind::FlowRouting => built(is_dynamic_wave(text)),
        OptionKind::StartDate => Ok(Setting::StartDate(day(text)?)),
        OptionKind::StartTime => Ok(Setting::StartTime(time(text)?)),
        OptionKind::EndDate => Ok(Setting::EndDate(day(text)?)),
        OptionKind::EndTime => Ok(Setting::EndTime(time(text)?)),
        OptionKind::ReportStep => Ok(Setting::ReportStep(clock_step(text, 86_400_000)?)),
        OptionKind::WetStep => Ok(Setting::WetStep(clock_step(text, 3_600_000)?)),
        OptionKind::RoutingStep => Ok(Setting::RoutingStep(routing_step(text)?)),
        OptionKind::VariableStep => Ok(Setting::VariableStep(variable_step(text)?)),
        OptionKind::AllowPonding => Ok(Setting::Ponding(keyword(yes_no(text))?)),
        OptionKind::InertialDamping => Ok(Setting::Inertia(keyword(damping_named(text))?)),
        OptionKind::NormalFlowLimited => Ok(Setting::NormalFlow(keyword(limiter_named(text))?)),
        OptionKind::MinSurfArea => Ok(Setting::MinArea(area(units, text)?)),
        OptionKind::HeadTolerance => Ok(Setting::Tolerance(tolerance(units, text)?)),
        OptionKind::MaxTrials => Ok(Setting::MaxTrials(trials(text)?)),
        OptionKind::Threads => Ok(Setting::Threads(value(whole(text), FaultKind::InvalidNumber)?)),
        OptionKind::LinkOffsets => off(offsets_named(text)),
        OptionKind::RuleStep => built(is_zero(clock(text))),
        OptionKind::SurchargeMethod => Ok(Setting::Extran(keyword(method_named(text))?)),
        OptionKind::Zero => built(is_zero(raw(text))),
        OptionKind::No => off(yes_no(text)),
        OptionKind::Unused => Ok(Setting::Fixed),
    }
}
