// The flow of a pump.
ghost use Rattle.std.specs.Prelude.{◌≡◌, ◌^◌, pos};
ghost use Rattle.fixed_num.specs.Ranges.{IsBetween, IsPart, IsRaw};
ghost use Rattle.fixed_num.specs.Units.{IsUnit};
ghost use Rattle.net_types.specs.Ranges.{CurveInRange};
ghost use Rattle.pump_flow.specs.PumpFlow.{ArePumpUnits, IsPumpInlet, curve_flow_of, pump_flow_of, set_flow_of};

use crate::curve::curve_value;
use fixed_num::{Unit, quo};
use net_types::Curve;

/// The units of the values of pump curves: of volumes, of depths and lifts, and of flows.
#[derive(Clone, Copy, Debug)]
pub struct PumpUnits {
    pub volume: Unit,
    pub depth: Unit,
    pub flow: Unit,
}

/// What stands at the ends of a pump: the volume of its first node (mm³, within 10^28) and the depth there,
/// and the head of
/// its second node less that of its first one (both in µm, within 4·10^10).
#[derive(Clone, Copy, Debug, PartialEq, Eq)]
pub struct PumpInlet {
    pub volume: i128,
    pub depth: i64,
    pub lift: i64,
}

// A value of a curve as a flow.
#[tactic(auto, using(fixed_num::proofs::Bounds::casts), unfolding(crate::specs::PumpFlow::curve_flow_of))]
fn curve_flow(unit: &Unit, value: i64) -> i128
    requires unit { IsUnit unit.now }
    requires value { IsRaw value }
    ensures value { result ≡ curve_flow_of unit.now value }
    ensures range { IsBetween (pos 0) result (pos 100_000_000_000_000_000_000) }
{
    quo(
        value as i128 * unit.num as i128,
        unit.den as i128 * 1_000_000,
    )
    .max(0)
}

// A part of a flow.
#[tactic(auto, using(fixed_num::proofs::Bounds::casts), unfolding(crate::specs::PumpFlow::set_flow_of))]
fn set_flow(flow: i128, setting: i64) -> i128
    requires flow { IsBetween (pos 0) flow (pos 100_000_000_000_000_000_000) }
    requires setting { IsPart setting }
    ensures value { result ≡ set_flow_of flow setting }
    ensures range { IsBetween (pos 0) result (pos 100_000_000_000_000_000_000) }
{
    quo(flow * setting as i128, 1_000_000)
}

/// The flow of a pump with this curve, in cm³/s: 0 to 10^20, before it is relaxed and bounded.
///
/// `setting` is in millionths. A curve of the first kind is read at the volume of the first node and one of
/// the second kind at
/// its depth, both as steps; one of the third kind at the lift, where it is above 0, and one of the fourth
/// kind at the depth, both
/// as lines whose ends hold.
/// Source: Reference Manual volume II, chapter 6; the steps and the rounding are this project's profile.
#[tactic(auto, using(fixed_num::proofs::Bounds::casts), unfolding(crate::specs::PumpFlow::pump_flow_of))]
pub fn pump_flow(curve: &Curve, units: &PumpUnits, setting: i64, inlet: &PumpInlet) -> i128
    requires curve { CurveInRange curve.now }
    requires units { ArePumpUnits units.now }
    requires setting { IsPart setting }
    requires inlet { IsPumpInlet inlet.now }
    ensures value { result ≡ pump_flow_of curve.now units.now setting inlet.now }
    ensures range { IsBetween (pos 0) result (pos 100_000_000_000_000_000_000) }
{
    set_flow(
        curve_flow(&units.flow, curve_value(curve, units, inlet)),
        setting,
    )
}

#[test]
fn a_value_as_a_flow(rt: HostRuntime) {
    let cubic_metres = Unit {
        num: 1_000_000,
        den: 1,
        least: -1_000_000_000_000,
        most: 1_000_000_000_000,
    };
    assert_eq!(rt; curve_flow(&cubic_metres, 300_000), 300_000);
    assert_eq!(rt; set_flow(300_000, 500_000), 150_000);
}
