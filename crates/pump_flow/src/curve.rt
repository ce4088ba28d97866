// What the curve of a pump is read as.
ghost use Rattle.std.specs.Prelude.{◌≡◌, ◌*◌, ◌^◌, ◌≤◌, length, pos};
ghost use Rattle.std.specs.List.{All};
ghost use Rattle.fixed_num.specs.Ranges.{IsFall, IsRaw, IsWithin};
ghost use Rattle.fixed_num.specs.Units.{IsUnit};
ghost use Rattle.net_types.specs.Ranges.{CurveInRange, IsRising, PointInRange};
ghost use Rattle.rising_pairs.specs.Readings.{held_value};
ghost use Rattle.pump_flow.specs.CurveReading.{curve_value_of, step_value_of, user_value_of};
ghost use Rattle.pump_flow.specs.PumpFlow.{ArePumpUnits, IsPumpInlet};

use crate::flow::{PumpInlet, PumpUnits};
use fixed_num::{Unit, cut, quo};
use net_types::{Curve, CurveKind};
use rising_pairs::{first_above, held_reading};

// A volume in millionths of its user's unit.
#[tactic(auto, using(fixed_num::proofs::Bounds::casts), unfolding(crate::specs::CurveReading::user_value_of))]
fn user_volume(unit: &Unit, volume: i128) -> i128
    requires unit { IsUnit unit.now }
    requires part { unit.now.den ≤ 1_000 }
    requires volume { IsWithin (10 ^ 28) volume }
    ensures value { result ≡ user_value_of unit.now volume }
{
    quo(volume * unit.den as i128 * 1_000_000, unit.num as i128)
}

// A depth in millionths of its user's unit.
#[tactic(auto, using(fixed_num::proofs::Bounds::casts), unfolding(crate::specs::CurveReading::user_value_of))]
fn user_depth(unit: &Unit, depth: i64) -> i64
    requires unit { IsUnit unit.now }
    requires whole { unit.now.den ≡ 1 }
    requires depth { IsFall depth }
    ensures value { result ≡ user_value_of unit.now depth }
{
    quo(
        depth as i128 * unit.den as i128 * 1_000_000,
        unit.num as i128,
    ) as i64
}

// The value of a curve of steps at a number of any size.
fn step_value(points: &[(i64, i64)], key: i128) -> i64
    requires some { 1 ≤ length points.now }
    requires points { All PointInRange points.now }
    requires rising { IsRising points.now }
    ensures value { result ≡ step_value_of points.now key }
    ensures range { IsRaw result }
{
    let held = cut(key, -2_000_000_000_000_000, 2_000_000_000_000_000) as i64;
    let above = first_above(points, held);
    if above < points.len() {
        return points[above].1;
    }
    points[points.len() - 1].1
}

// The value of a curve of lines.
fn line_value(points: &[(i64, i64)], key: i64) -> i64
    requires some { 1 ≤ length points.now }
    requires points { All PointInRange points.now }
    requires rising { IsRising points.now }
    ensures value { result ≡ held_value points.now key }
    ensures range { IsRaw result }
{
    held_reading(points, key)
}

// The value of the curve of a pump.
#[tactic(auto, using(fixed_num::proofs::Bounds::casts), unfolding(crate::specs::CurveReading::curve_value_of))]
pub(crate) fn curve_value(curve: &Curve, units: &PumpUnits, inlet: &PumpInlet) -> i64
    requires curve { CurveInRange curve.now }
    requires units { ArePumpUnits units.now }
    requires inlet { IsPumpInlet inlet.now }
    ensures value { result ≡ curve_value_of curve.now.kind curve.now.points units.now inlet.now }
    ensures range { IsRaw result }
{
    let points = curve.points.as_slice();
    match curve.kind {
        CurveKind::Pump1 => step_value(points, user_volume(&units.volume, inlet.volume)),
        CurveKind::Pump2 => step_value(points, user_depth(&units.depth, inlet.depth) as i128),
        CurveKind::Pump3 => line_value(points, user_depth(&units.depth, inlet.lift.max(0))),
        CurveKind::Pump4 => line_value(points, user_depth(&units.depth, inlet.depth)),
        CurveKind::Storage => 0,
        CurveKind::Tidal => 0,
    }
}
