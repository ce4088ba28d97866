// The table of a storage.
ghost use Rattle.std.specs.Prelude.{◌≡◌, ◌^◌, ◌*◌, pos, ◌<ℤ◌};
ghost use Rattle.fixed_num.specs.Interpolation.{lerp_of};
ghost use Rattle.fixed_num.specs.Ranges.{IsBetween, IsDepth, IsFall, IsFullHeight, IsNodeArea};
ghost use Rattle.net_types.specs.Ranges.{StoreShapeInRange};
ghost use Rattle.net_types.specs.Sound.{IsSound, StoreShapeNames};
ghost use Rattle.storage_shapes.specs.ShapeArea.{AreStoreUnits, shape_area_of};
ghost use Rattle.storage_shapes.specs.StoreTable.{IsStoreTable, stored_area_of, stored_volume_of, table_of};
ghost use Rattle.storage_shapes.specs.StoreTable.{volume_above_of, volume_below_of};

use crate::rows::{area_points, prism, volume_row};
use crate::shapes::StoreUnits;
use fixed_num::quo;
use net_types::{Project, StoreShape};
use rising_pairs::{first_above, held_reading};

/// The table of a storage: its 201 grid depths (µm) with the areas at them (mm²), and the volumes below them (mm³).
///
/// The grid depths are the 200 equal parts of its full depth. Source: this project's profile.
#[derive(Debug, Drop)]
pub struct StoreTable {
    pub areas: [(i64, i64); 201],
    pub volumes: [i128; 201],
}

impl StoreTable {
    /// The table of a storage of this shape.
    ///
    /// `full` is its full depth in µm, 1,000 to 10^9. It takes no memory.
    /// Source: User's Manual, section [STORAGE]; the table is this project's profile.
    pub fn build(project: &Project, units: &StoreUnits, shape: &StoreShape, full: i64) -> StoreTable
        requires sound { IsSound project.now }
        requires units { AreStoreUnits units.now }
        requires range { StoreShapeInRange shape.now }
        requires names { StoreShapeNames project.now shape.now }
        requires full { IsFullHeight full }
        ensures value { result ≡ table_of (shape_area_of project.now.curves units.now shape.now) full }
        ensures table { IsStoreTable result }
    {
        StoreTable {
            areas: area_points(project, units, shape, full),
            volumes: volume_row(project, units, shape, full),
        }
    }

    /// The area at a depth, in mm². A depth in µm below 0 counts as 0, and one above the full depth as that.
    ///
    /// Source: this project's profile.
    pub fn area(&self, depth: i64) -> i64
        requires { IsStoreTable self.now }
        ensures value { result ≡ stored_area_of self.now depth }
        ensures range { IsNodeArea result }
    {
        held_reading(&self.areas, depth)
    }

    /// The volume below a depth, in mm³. A depth in µm below 0 counts as 0, and above the full depth the storage goes
    /// on as a prism.
    ///
    /// Source: this project's profile.
    pub fn volume(&self, depth: i64) -> i128
        requires table { IsStoreTable self.now }
        requires depth { IsFall depth }
        ensures value { result ≡ stored_volume_of self.now depth }
        ensures range { IsBetween (pos 0) result (pos (10 ^ 21)) }
    {
        self.volume_below(depth) + self.volume_above(depth)
    }

    // The volume below a depth within the table.
    fn volume_below(&self, depth: i64) -> i128
        requires { IsStoreTable self.now }
        ensures value { result ≡ volume_below_of self.now depth }
        ensures range { IsBetween (pos 0) result (pos (2 * 10 ^ 19)) }
    {
        let place = first_above(&self.areas, depth);
        if place == 0 {
            return self.volumes[0];
        }
        if place > 200 {
            return self.volumes[200];
        }
        line(
            self.areas[place - 1].0,
            self.volumes[place - 1],
            self.areas[place].0,
            self.volumes[place],
            depth,
        )
    }

    // The volume between the full depth and a depth above it.
    fn volume_above(&self, depth: i64) -> i128
        requires table { IsStoreTable self.now }
        requires depth { IsFall depth }
        ensures value { result ≡ volume_above_of self.now depth }
        ensures range { IsBetween (pos 0) result (pos (8 * 10 ^ 20)) }
    {
        let full = self.areas[200].0;
        if full < depth {
            return prism(self.areas[200].1, depth - full);
        }
        0
    }
}

// The value at `x` of the straight line through two points, whose values may be any volumes.
fn line(x0: i64, v0: i128, x1: i64, v1: i128, x: i64) -> i128
    requires x0 { IsDepth x0 }
    requires x1 { IsDepth x1 }
    requires apart { x0 <ℤ x1 }
    requires x { IsBetween x0 x x1 }
    requires v0 { IsBetween (pos 0) v0 (pos (2 * 10 ^ 19)) }
    requires v1 { IsBetween (pos 0) v1 (pos (2 * 10 ^ 19)) }
    ensures value { result ≡ lerp_of x0 v0 x1 v1 x }
    ensures range { IsBetween (pos 0) result (pos (2 * 10 ^ 19)) }
{
    let part = x as i128 - x0 as i128;
    let run = x1 as i128 - x0 as i128;
    v0 + quo((v1 - v0) * part, run)
}
