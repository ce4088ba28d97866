// The rows of a table, each from the shape.
ghost use Rattle.std.specs.Prelude.{◌≡◌, ℕ, ◌+◌, ◌*◌, ◌^◌, ◌<◌, ◌≤◌, pos, ◌-ℤ◌, ◌≤ℤ◌};
ghost use Rattle.fixed_num.specs.Ranges.{IsBetween, IsDepth, IsFullHeight, IsNodeArea};
ghost use Rattle.net_types.specs.Ranges.{StoreShapeInRange};
ghost use Rattle.net_types.specs.Sound.{IsSound, StoreShapeNames};
ghost use Rattle.storage_shapes.specs.ShapeArea.{AreStoreUnits, shape_area_of};
ghost use Rattle.storage_shapes.specs.StoreTable.{area_points_of, grid_depth_of, middle_of, prism_of, strip_volume_of};
ghost use Rattle.storage_shapes.specs.StoreTable.{volume_row_of};

use crate::shapes::{StoreUnits, shape_area};
use fixed_num::quo;
use net_types::{Project, StoreShape};

// Grid depth `i` of a full depth, in µm.
fn grid_depth(full: i64, i: usize) -> i64
    requires full { IsFullHeight full }
    requires place { i ≤ 200 }
    ensures value { result ≡ grid_depth_of full i }
    ensures range { IsDepth result }
{
    quo(i as i128 * full as i128, 200) as i64
}

// The middle of two depths, in µm.
fn middle(low: i64, high: i64) -> i64
    requires low { IsDepth low }
    requires high { IsDepth high }
    ensures value { result ≡ middle_of low high }
    ensures range { IsDepth result }
{
    quo(low as i128 + high as i128, 2) as i64
}

// The volume of a prism, in mm³.
pub(crate) fn prism(area: i64, height: i64) -> i128
    requires area { IsNodeArea area }
    requires height { IsBetween (pos 0) height (pos 50_000_000_000) }
    ensures value { result ≡ prism_of area height }
    ensures range { IsBetween (pos 0) result (pos (8 * 10 ^ 20)) }
    ensures low { height ≤ℤ pos 1_000_000_000 → result ≤ℤ pos (10 ^ 19) }
{
    quo(area as i128 * height as i128, 1_000)
}

// The height of the strip between grid depths `i` and `i + 1`, in µm.
fn strip_height(full: i64, i: usize) -> i64
    requires full { IsFullHeight full }
    requires place { i < 200 }
    ensures value { result ≡ grid_depth_of full (i + 1) -ℤ grid_depth_of full i }
    ensures range { IsDepth result }
{
    grid_depth(full, i + 1) - grid_depth(full, i)
}

// The volume of that strip, in mm³.
fn strip_volume(
    project: &Project,
    units: &StoreUnits,
    shape: &StoreShape,
    full: i64,
    i: usize,
) -> i128
    requires sound { IsSound project.now }
    requires units { AreStoreUnits units.now }
    requires range { StoreShapeInRange shape.now }
    requires names { StoreShapeNames project.now shape.now }
    requires full { IsFullHeight full }
    requires place { i < 200 }
    ensures value { result ≡ strip_volume_of (shape_area_of project.now.curves units.now shape.now) full i }
    ensures within { IsBetween (pos 0) result (pos (10 ^ 19)) }
{
    let middle = middle(grid_depth(full, i), grid_depth(full, i + 1));
    prism(
        shape_area(project, units, shape, middle),
        strip_height(full, i),
    )
}

// The grid depths with the areas at them.
pub(crate) fn area_points(
    project: &Project,
    units: &StoreUnits,
    shape: &StoreShape,
    full: i64,
) -> [(i64, i64); 201]
    requires sound { IsSound project.now }
    requires units { AreStoreUnits units.now }
    requires range { StoreShapeInRange shape.now }
    requires names { StoreShapeNames project.now shape.now }
    requires full { IsFullHeight full }
    ensures { result ≡ area_points_of (shape_area_of project.now.curves units.now shape.now) full }
{
    let mut row = [(0, 0); 201];
    for i in 0..201 {
        let depth = grid_depth(full, i);
        row[i] = (depth, shape_area(project, units, shape, depth));
    }
    row
}

// The volumes below the grid depths, strip after strip.
pub(crate) fn volume_row(
    project: &Project,
    units: &StoreUnits,
    shape: &StoreShape,
    full: i64,
) -> [i128; 201]
    requires sound { IsSound project.now }
    requires units { AreStoreUnits units.now }
    requires range { StoreShapeInRange shape.now }
    requires names { StoreShapeNames project.now shape.now }
    requires full { IsFullHeight full }
    ensures { result ≡ volume_row_of (shape_area_of project.now.curves units.now shape.now) full }
{
    let mut row: [i128; 201] = [0; 201];
    let mut below: i128 = 0;
    for i in 0..200 {
        below += strip_volume(project, units, shape, full, i);
        row[i + 1] = below;
    }
    row
}
