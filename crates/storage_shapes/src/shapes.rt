// The area of a storage at a depth, by its shape.
ghost use Rattle.std.specs.Prelude.{◌≡◌, ◌*◌, ◌≤◌, ◌^◌, pos};
ghost use Rattle.fixed_num.specs.Ranges.{IsBetween, IsDepth, IsNodeArea, IsRawAmount, IsWithin};
ghost use Rattle.fixed_num.specs.Units.{IsUnit};
ghost use Rattle.net_types.specs.Ranges.{CurveInRange, StoreShapeInRange};
ghost use Rattle.net_types.specs.Sound.{IsSound, StoreShapeNames};
ghost use Rattle.storage_shapes.specs.ShapeArea.{AreStoreUnits, area_of_value, functional_of, shape_area_of};
ghost use Rattle.storage_shapes.specs.ShapeArea.{shape_value_of, user_depth_of};

use crate::powers::power;
use fixed_num::{Unit, cut, quo};
use net_types::{Project, StoreShape};
use rising_pairs::held_reading;

/// The units of a storage's depths and areas in the user's input.
#[derive(Clone, Copy, Debug)]
pub struct StoreUnits {
    pub depth: Unit,
    pub area: Unit,
}

// A depth in millionths of its user's unit.
#[tactic(auto, using(fixed_num::proofs::Bounds::casts), unfolding(crate::specs::ShapeArea::user_depth_of))]
fn user_depth(unit: &Unit, depth: i64) -> i64
    requires unit { IsUnit unit.now }
    requires whole { unit.now.den ≡ 1 }
    requires least { 100_000 ≤ unit.now.num }
    requires depth { IsDepth depth }
    ensures value { result ≡ user_depth_of unit.now depth }
    ensures range { IsBetween (pos 0) result (pos 10_000_000_000) }
{
    quo(
        depth as i128 * unit.den as i128 * 1_000_000,
        unit.num as i128,
    ) as i64
}

// The value of a functional storage.
#[tactic(auto, using(fixed_num::proofs::Bounds::casts), unfolding(crate::specs::ShapeArea::functional_of))]
fn functional(a1: i64, halves: u32, a0: i64, x: i64) -> i128
    requires a1 { IsRawAmount a1 }
    requires few { halves ≤ 6 }
    requires a0 { IsRawAmount a0 }
    requires x { IsBetween (pos 0) x (pos 10_000_000_000) }
    ensures value { result ≡ functional_of a1 halves a0 x }
    ensures range { IsWithin (11 * 10 ^ 26) result }
{
    quo(a1 as i128 * power(x, halves) as i128, 1_000_000) + a0 as i128
}

// The value of a storage at a depth of the user.
#[tactic(auto, using(fixed_num::proofs::Bounds::casts), unfolding(crate::specs::ShapeArea::shape_value_of))]
fn shape_value(project: &Project, shape: &StoreShape, x: i64) -> i128
    requires sound { IsSound project.now }
    requires range { StoreShapeInRange shape.now }
    requires names { StoreShapeNames project.now shape.now }
    requires x { IsBetween (pos 0) x (pos 10_000_000_000) }
    ensures value { result ≡ shape_value_of project.now.curves shape.now x }
    ensures within { IsWithin (11 * 10 ^ 26) result }
{
    match shape {
        StoreShape::Tabular(curve) => {
            let curves = project.curves.as_slice();
            let points = curves[*curve as usize].points.as_slice();
            held_reading(points, x) as i128
        }
        StoreShape::Functional { a1, halves, a0 } => functional(*a1, *halves, *a0, x),
    }
}

// A value as an area.
#[tactic(auto, using(fixed_num::proofs::Bounds::casts), unfolding(crate::specs::ShapeArea::area_of_value))]
fn area_of(unit: &Unit, value: i128) -> i64
    requires unit { IsUnit unit.now }
    requires value { IsWithin (11 * 10 ^ 26) value }
    ensures value { result ≡ area_of_value unit.now value }
    ensures range { IsNodeArea result }
{
    cut(
        quo(value * unit.num as i128, unit.den as i128 * 1_000_000),
        0,
        10_000_000_000_000,
    ) as i64
}

/// The area of a storage of this shape at a depth.
///
/// `depth` is in µm, 0 to 10^9; the area is in mm², 0 to 10^13. A tabular storage is read on the lines of its
/// curve, whose
/// ends hold. Source: User's Manual, section [STORAGE]; the rounding is this project's profile.
#[tactic(auto, using(fixed_num::proofs::Bounds::casts), unfolding(crate::specs::ShapeArea::shape_area_of))]
pub fn shape_area(project: &Project, units: &StoreUnits, shape: &StoreShape, depth: i64) -> i64
    requires sound { IsSound project.now }
    requires units { AreStoreUnits units.now }
    requires range { StoreShapeInRange shape.now }
    requires names { StoreShapeNames project.now shape.now }
    requires depth { IsDepth depth }
    ensures value { result ≡ shape_area_of project.now.curves units.now shape.now depth }
    ensures within { IsNodeArea result }
{
    area_of(
        &units.area,
        shape_value(project, shape, user_depth(&units.depth, depth)),
    )
}
