// The water that stands in a conduit.
ghost use Rattle.std.specs.Prelude.{◌≡◌, ◌*◌, ◌^◌, ℤ, pos, ◌*ℤ◌};
ghost use Rattle.std.specs.Int.{int_min};
ghost use Rattle.fixed_num.specs.Rounding.{quo_of};
ghost use Rattle.fixed_num.specs.Ranges.{IsBetween, IsConduitLength, AreBarrels, IsHead, IsWaterDepth};
ghost use Rattle.conduit_flow.specs.Conduits.{IsConduit, IsConduitTable};
ghost use Rattle.conduit_flow.specs.Geometry.{surface_of, depth_of, mean_depth_of, mid_area_of, prism_of, volume_of};
ghost use Rattle.conduit_flow.specs.Geometry.{ends_of, middle_of, end_area_of};
ghost use Rattle.conduit_flow.specs.Geometry.{EndsInRange, IsFlowArea, IsTableWidth, MiddleInRange};
ghost use Rattle.conduit_flow.specs.Geometry.{is_pressurized as pressurized_at};

use crate::conduit::ConduitData;
use fixed_num::quo;
use quick_quotients::quick_quo;
use xsect_tables::{Table, celerity};

// The two ends of a conduit: the water surfaces, the depths and the widths there, in µm, and the areas of flow, in mm².
#[derive(Clone, Copy, Debug)]
pub(crate) struct Ends {
    pub(crate) surface1: i64,
    pub(crate) surface2: i64,
    pub(crate) depth1: i64,
    pub(crate) depth2: i64,
    pub(crate) area1: i64,
    pub(crate) area2: i64,
    pub(crate) width1: i64,
    pub(crate) width2: i64,
}

// The section in the middle of a conduit: area of flow (mm²), width and hydraulic radius (µm), the celerity of a wave
// (µm/s), and whether it is a closed section that is full.
#[derive(Clone, Copy, Debug)]
pub(crate) struct Middle {
    pub(crate) area: i64,
    pub(crate) width: i64,
    pub(crate) radius: i64,
    pub(crate) wave: i64,
    pub(crate) pressurized: bool,
}

/// The area of flow in the middle of a conduit, in mm², from the heads of the nodes at its ends in µm.
///
/// Source: Reference Manual volume II, chapter 3.
#[tactic(auto, using(fixed_num::proofs::Bounds::casts), unfolding(crate::specs::Geometry::mid_area_of))]
pub fn mid_area(conduit: &ConduitData, table: &Table, near: i64, far: i64) -> i64
    requires conduit { IsConduit conduit.now }
    requires table { IsConduitTable table.now }
    requires near { IsHead near }
    requires far { IsHead far }
    ensures value { result ≡ mid_area_of conduit.now table.now near far }
    ensures range { IsBetween (pos 0) result (pos (5 * 10 ^ 11)) }
{
    table.area(mean_depth(conduit, near, far))
}

/// The volume of water in a conduit, in mm³, from the heads of the nodes at its ends in µm.
///
/// Source: Reference Manual volume II, chapter 3.
#[tactic(auto, using(fixed_num::proofs::Bounds::casts), unfolding(crate::specs::Geometry::volume_of))]
pub fn conduit_volume(conduit: &ConduitData, table: &Table, near: i64, far: i64) -> i128
    requires conduit { IsConduit conduit.now }
    requires table { IsConduitTable table.now }
    requires near { IsHead near }
    requires far { IsHead far }
    ensures value { result ≡ volume_of conduit.now table.now near far }
    ensures range { IsBetween (pos 0) result (pos (10 ^ 22)) }
{
    prism(
        mid_area(conduit, table, near, far),
        conduit.length,
        table.barrels(),
    )
}

// The volume of an area of flow along a length in a number of barrels.
#[tactic(auto, using(fixed_num::proofs::Bounds::casts), unfolding(crate::specs::Geometry::prism_of))]
fn prism(area: i64, length: i64, barrels: i64) -> i128
    requires area { IsFlowArea area }
    requires length { IsConduitLength length }
    requires barrels { AreBarrels barrels }
    ensures value { result ≡ prism_of area length barrels }
    ensures range { IsBetween (pos 0) result (pos (10 ^ 22)) }
{
    barrels as i128 * quo(area as i128 * length as i128, 1_000)
}

// The water surface at an end.
#[tactic(auto, using(fixed_num::proofs::Bounds::casts), unfolding(crate::specs::Geometry::surface_of))]
fn surface(head: i64, invert: i64) -> i64
    requires head { IsHead head }
    requires invert { IsHead invert }
    ensures value { result ≡ surface_of head invert }
    ensures range { IsHead result }
{
    head.max(invert)
}

// The depth of water at an end.
#[tactic(auto, using(fixed_num::proofs::Bounds::casts), unfolding(crate::specs::Geometry::depth_of, crate::specs::Geometry::surface_of))]
fn depth(head: i64, invert: i64) -> i64
    requires head { IsHead head }
    requires invert { IsHead invert }
    ensures value { result ≡ depth_of head invert }
    ensures range { IsWaterDepth result }
{
    head.max(invert) - invert
}

// The mean of the two depths.
#[tactic(auto, using(fixed_num::proofs::Bounds::casts), unfolding(crate::specs::Geometry::mean_depth_of))]
pub(crate) fn mean_depth(conduit: &ConduitData, near: i64, far: i64) -> i64
    requires conduit { IsConduit conduit.now }
    requires near { IsHead near }
    requires far { IsHead far }
    ensures value { result ≡ mean_depth_of conduit.now near far }
    ensures range { IsWaterDepth result }
{
    let depth1 = depth(near, conduit.z1);
    let depth2 = depth(far, conduit.z2);
    quick_quo(depth1 + depth2, 2)
}

// The water surfaces at the two ends, and the depths, the areas and the widths there.
#[tactic(auto, using(fixed_num::proofs::Bounds::casts), unfolding(crate::specs::Geometry::ends_of))]
pub(crate) fn ends_at(conduit: &ConduitData, table: &Table, near: i64, far: i64) -> Ends
    requires conduit { IsConduit conduit.now }
    requires table { IsConduitTable table.now }
    requires near { IsHead near }
    requires far { IsHead far }
    ensures value { result ≡ ends_of conduit.now table.now near far }
    ensures range { EndsInRange result }
{
    let depth1 = depth(near, conduit.z1);
    let depth2 = depth(far, conduit.z2);
    let end1 = table.end_section(depth1);
    let end2 = table.end_section(depth2);
    Ends {
        surface1: surface(near, conduit.z1),
        surface2: surface(far, conduit.z2),
        depth1,
        depth2,
        area1: end1.area,
        area2: end2.area,
        width1: end1.width,
        width2: end2.width,
    }
}

// The section at the mean depth.
#[tactic(auto, using(fixed_num::proofs::Bounds::casts), unfolding(crate::specs::Geometry::middle_of))]
pub(crate) fn middle_at(table: &Table, depth: i64) -> Middle
    requires table { IsConduitTable table.now }
    requires depth { IsWaterDepth depth }
    ensures value { result ≡ middle_of table.now depth }
    ensures range { MiddleInRange result }
{
    let section = table.flow_section(depth);
    Middle {
        area: section.area,
        width: section.width,
        radius: section.radius,
        wave: celerity(section.area, section.width),
        pressurized: is_pressurized(table, depth),
    }
}

// Whether a closed section is full to its top.
#[tactic(auto, using(fixed_num::proofs::Bounds::casts), unfolding(crate::specs::Geometry::is_pressurized))]
fn is_pressurized(table: &Table, depth: i64) -> bool
    ensures { result ≡ pressurized_at table.now depth }
{
    table.is_closed() && depth >= table.full_height()
}

// The water surface that a conduit adds to the node at one end.
#[tactic(auto, using(fixed_num::proofs::Bounds::casts), unfolding(crate::specs::Geometry::end_area_of))]
pub(crate) fn end_area(width: i64, middle_width: i64, length: i64, barrels: i64) -> i64
    requires width { IsTableWidth width }
    requires middle { IsTableWidth middle_width }
    requires length { IsConduitLength length }
    requires barrels { AreBarrels barrels }
    ensures value { result ≡ end_area_of width middle_width length barrels }
    ensures range { IsBetween (pos 0) result (pos (5 * 10 ^ 12)) }
{
    let widths = width + middle_width;
    if widths <= NARROW {
        return narrow_end_area(widths, length, barrels);
    }
    wide_end_area(width, middle_width, length, barrels)
}

// Up to this sum of two widths, in µm, the volume below it along a conduit fits 64 bits.
const NARROW: i64 = 40_000_000;

// The surface of two widths with this sum.
fn narrow_end_area(widths: i64, length: i64, barrels: i64) -> i64
    requires widths { IsBetween (pos 0) widths (pos 40_000_000) }
    requires length { IsConduitLength length }
    requires barrels { AreBarrels barrels }
    ensures { result ≡ int_min (pos 5_000_000_000_000) (barrels *ℤ quo_of (widths *ℤ length) (pos 4_000_000)) }
{
    let one = quick_quo(widths * length, 4_000_000);
    5_000_000_000_000_i64.min(barrels * one)
}

// The surface of any two widths.
#[tactic(auto, using(fixed_num::proofs::Bounds::casts), unfolding(crate::specs::Geometry::end_area_of))]
fn wide_end_area(width: i64, middle_width: i64, length: i64, barrels: i64) -> i64
    requires width { IsTableWidth width }
    requires middle { IsTableWidth middle_width }
    requires length { IsConduitLength length }
    requires barrels { AreBarrels barrels }
    ensures value { result ≡ end_area_of width middle_width length barrels }
    ensures range { IsBetween (pos 0) result (pos (5 * 10 ^ 12)) }
{
    let one = quo(
        (width as i128 + middle_width as i128) * length as i128,
        4_000_000,
    );
    5_000_000_000_000_i128.min(barrels as i128 * one) as i64
}
