// The values of numbers and switches.
ghost use Rattle.std.specs.Prelude.{◌≡◌, ◌^◌, pos, IfOk, IfSome};
ghost use Rattle.fixed_num.specs.Decimal.{scaled_of};
ghost use Rattle.fixed_num.specs.Ranges.{IsBetween, IsEven};
ghost use Rattle.inp_lines.specs.Faults.{fault_of_kind};
ghost use Rattle.inp_lines.specs.Readings.{needed_of};
ghost use Rattle.inp_options.specs.Ranges.{IsTrials};
ghost use Rattle.inp_options.specs.Values.{area_of, built_of, is_zero, off_of, tolerance_of};
ghost use Rattle.inp_options.specs.Values.{trials_of, variable_of, within};
ghost use Rattle.inp_options.specs.Values.{zero_as};
ghost use Rattle.inp_values.specs.Field.{whole_of};
ghost use Rattle.inp_values.specs.Units.{unit_for};

use crate::setting::Setting;
use fixed_num::scaled_decimal;
use inp_lines::{Fault, fault_of_kind, needed};
use inp_values::{Quantity, unit_of, whole};
use net_types::{FaultKind, FlowUnits};

/// A fault of a kind at the second token.
pub(crate) fn fault(kind: FaultKind) -> Fault
    ensures { result ≡ fault_of_kind kind 1 }
{
    fault_of_kind(kind, 1)
}

/// A value that is there, or a fault of a kind at the second token.
pub(crate) fn value<T: Drop>(found: Option<T>, kind: FaultKind) -> Result<T, Fault>
    ensures { result ≡ needed_of found kind 1 }
{
    needed(found, kind, 1)
}

/// What a keyword stands for, or the fault of a text that is none.
pub(crate) fn keyword<T: Drop>(word: Option<T>) -> Result<T, Fault>
    ensures { result ≡ needed_of word FaultKind.InvalidKeyword 1 }
{
    value(word, FaultKind::InvalidKeyword)
}

/// A value that lies in a range, or a fault of a kind.
pub(crate) fn in_range(
    value: Option<i64>,
    least: i64,
    most: i64,
    kind: FaultKind,
) -> Result<i64, Fault>
    ensures value { result ≡ needed_of (within least most value) kind 1 }
    ensures range { IfOk result (λ v. IsBetween least v most) }
    ensures even { IfSome value IsEven → IfOk result IsEven }
{
    let Some(value) = value else {
        return Err(fault(kind));
    };
    if value < least {
        return Err(fault(kind));
    }
    if value > most {
        return Err(fault(kind));
    }
    Ok(value)
}

// The value, or the default where it is 0.
fn zero_as(default: i64, value: Option<i64>) -> Option<i64>
    ensures { result ≡ zero_as default value }
{
    if is_zero(value) {
        return Some(default);
    }
    value
}

/// The least surface area of a node: 0 stands for the default, and there is nothing between it and 10,000 mm².
#[tactic(auto, unfolding(crate::specs::Values::area_of))]
pub(crate) fn area(units: FlowUnits, text: &[u8]) -> Result<i64, Fault>
    ensures value { result ≡ needed_of (area_of units text.now) FaultKind.InvalidNumber 1 }
    ensures range { IfOk result (λ v. IsBetween (pos 10_000) v (pos (10 ^ 13))) }
{
    let stored = scaled_decimal(text, &unit_of(units, Quantity::NodeArea));
    in_range(
        zero_as(1_167_420, stored),
        10_000,
        10_000_000_000_000,
        FaultKind::InvalidNumber,
    )
}

/// The part of the shortest travel time that a step takes at most, from 0 to 2.
#[tactic(auto, unfolding(crate::specs::Values::variable_of))]
pub(crate) fn variable_step(text: &[u8]) -> Result<i64, Fault>
    ensures value { result ≡ needed_of (variable_of text.now) FaultKind.InvalidNumber 1 }
    ensures range { IfOk result (λ v. IsBetween (pos 0) v (pos 2_000_000)) }
{
    in_range(raw(text), 0, 2_000_000, FaultKind::InvalidNumber)
}

/// The head tolerance: 0 stands for the default.
#[tactic(auto, unfolding(crate::specs::Values::tolerance_of))]
pub(crate) fn tolerance(units: FlowUnits, text: &[u8]) -> Result<i64, Fault>
    ensures value { result ≡ needed_of (tolerance_of units text.now) FaultKind.InvalidNumber 1 }
    ensures range { IfOk result (λ v. IsBetween (pos 1) v (pos (10 ^ 9))) }
{
    let stored = scaled_decimal(text, &unit_of(units, Quantity::Depth));
    in_range(
        zero_as(1_524, stored),
        1,
        1_000_000_000,
        FaultKind::InvalidNumber,
    )
}

/// The most trials of a step: 0 stands for the default, and more than 20 are over the limit.
pub(crate) fn trials(text: &[u8]) -> Result<u32, Fault>
    ensures value { result ≡ trials_of (whole_of text.now) }
    ensures range { IfOk result IsTrials }
{
    let Some(most) = whole(text) else {
        return Err(fault(FaultKind::InvalidNumber));
    };
    if most > 20 {
        return Err(fault(FaultKind::OverLimit));
    }
    if most == 0 {
        return Ok(8);
    }
    Ok(most)
}

/// An option that is built for one value alone.
pub(crate) fn built(is_built: bool) -> Result<Setting, Fault>
    ensures { result ≡ built_of is_built }
{
    if is_built {
        return Ok(Setting::Fixed);
    }
    Err(fault(FaultKind::NotInProfile))
}

/// A switch that is built for one of its sides alone.
pub(crate) fn off(is_on: Option<bool>) -> Result<Setting, Fault>
    ensures { result ≡ off_of is_on }
{
    match is_on {
        None => Err(fault(FaultKind::InvalidKeyword)),
        Some(is_on) => built(!is_on),
    }
}

/// Whether a value is there and is 0.
pub(crate) fn is_zero(value: Option<i64>) -> bool
    ensures { result ≡ is_zero value }
{
    match value {
        Some(value) => value == 0,
        None => false,
    }
}

/// The value of a number without a unit, in millionths.
pub(crate) fn raw(text: &[u8]) -> Option<i64>
    ensures { result ≡ scaled_of (unit_for FlowUnits.Cfs Quantity.Raw) text.now }
{
    scaled_decimal(text, &unit_of(FlowUnits::Cfs, Quantity::Raw))
}
