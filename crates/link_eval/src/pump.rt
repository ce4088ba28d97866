// The law of a pump.
ghost use Rattle.std.specs.Prelude.{◌≡◌, ◌*◌, ◌^◌};
ghost use Rattle.fixed_num.specs.Ranges.{IsElevation, IsFlow, IsHead, IsWithin};
ghost use Rattle.link_eval.specs.Ends.{AreLinkEnds};
ghost use Rattle.link_eval.specs.Pumps.{IsPumpLaw, pump_inlet_of, pump_law_of, pump_share_of, pump_units_of};
ghost use Rattle.net_types.specs.Ranges.{CurveInRange};
ghost use Rattle.phase_law.specs.Ranges.{LinkFixedInRange};
ghost use Rattle.pump_flow.specs.PumpFlow.{ArePumpUnits, IsPumpInlet};

use crate::ends::LinkEnds;
use inp_values::{Quantity, unit_of};
use net_types::{Curve, FlowUnits};
use phase_law::{LinkFixed, Share};
use pump_flow::{PumpInlet, PumpUnits, pump_flow};
use short_links::{ShortLink, short_share};

/// What the share of a pump depends on: what bars it, its curve by its number, and the units in which that stands.
#[derive(Clone, Copy, Debug)]
pub struct PumpLaw {
    pub ends: ShortLink,
    pub curve: u32,
    pub units: PumpUnits,
}

// The law of a pump with this curve.
pub(crate) fn pump_law(curve: u32, ends: &LinkEnds, units: FlowUnits) -> PumpLaw
    requires ends { AreLinkEnds ends.now }
    ensures value { result ≡ pump_law_of curve ends.now units }
    ensures good { IsPumpLaw result }
{
    PumpLaw {
        ends: ends.short_link(false),
        curve,
        units: pump_units(units),
    }
}

// The units in which the curves of pumps stand.
fn pump_units(units: FlowUnits) -> PumpUnits
    ensures value { result ≡ pump_units_of units }
    ensures units { ArePumpUnits result }
{
    PumpUnits {
        volume: unit_of(units, Quantity::Volume),
        depth: unit_of(units, Quantity::Depth),
        flow: unit_of(units, Quantity::Flow),
    }
}

// What stands at the ends of a pump.
fn pump_inlet(ends: &ShortLink, volume: i128, near: i64, far: i64) -> PumpInlet
    requires invert { IsElevation ends.now.invert1 }
    requires volume { IsWithin (10 ^ 21) volume }
    requires near { IsHead near }
    requires far { IsHead far }
    ensures value { result ≡ pump_inlet_of ends.now volume near far }
    ensures range { IsPumpInlet result }
{
    PumpInlet {
        volume,
        depth: near - ends.invert1,
        lift: far - near,
    }
}

// The share of a pump with this curve in a trial. `volume` is the volume of its first node at the last head, in mm³.
pub(crate) fn pump_share(
    law: &PumpLaw,
    curve: &Curve,
    volume: i128,
    fixed: &LinkFixed,
    first: bool,
    near: i64,
    far: i64,
    last: i64,
) -> Share
    requires law { IsPumpLaw law.now }
    requires curve { CurveInRange curve.now }
    requires volume { IsWithin (10 ^ 21) volume }
    requires fixed { LinkFixedInRange fixed.now }
    requires near { IsHead near }
    requires far { IsHead far }
    requires last { IsFlow last }
    ensures { result ≡ pump_share_of law.now curve.now volume fixed.now first near far last }
{
    let inlet = pump_inlet(&law.ends, volume, near, far);
    let driven = pump_flow(curve, &law.units, fixed.setting, &inlet);
    short_share(&law.ends, first, near, far, last, driven)
}
