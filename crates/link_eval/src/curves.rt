// A copy of the curves of a project.
ghost use Rattle.std.specs.Prelude.{◌≡◌, IfOk};

use net_types::{Curve, List, OutOfMemory, Text};
use std::alloc::Global;

// Copies curves. The only error is want of memory.
pub(crate) fn copy_curves(alloc: Global, curves: &[Curve]) -> Result<List<Curve>, OutOfMemory>
    ensures { IfOk result (λ copy. copy ≡ curves.now) }
{
    let mut copy = List::new(alloc);
    for curve in curves {
        copy.push(copy_curve(alloc, curve)?)?;
    }
    Ok(copy)
}

// Copies a curve.
fn copy_curve(alloc: Global, curve: &Curve) -> Result<Curve, OutOfMemory>
    ensures { IfOk result (λ copy. copy ≡ curve.now) }
{
    let name = Text::from_slice(alloc, curve.name.as_slice())?;
    let points = copy_points(alloc, curve.points.as_slice())?;
    Ok(Curve {
        name,
        kind: curve.kind,
        points,
    })
}

// Copies the points of a curve.
fn copy_points(alloc: Global, points: &[(i64, i64)]) -> Result<List<(i64, i64)>, OutOfMemory>
    ensures { IfOk result (λ copy. copy ≡ points.now) }
{
    let mut copy = List::new(alloc);
    for i in 0..points.len() {
        copy.push(points[i])?;
    }
    Ok(copy)
}
