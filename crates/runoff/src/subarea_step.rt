// A step of runoff of one subarea.
ghost use Rattle.std.specs.Prelude.{◌≡◌, ◌*◌, ◌^◌, pos, ◌+ℤ◌};
ghost use Rattle.fixed_num.specs.Ranges.{IsBetween, IsSmallDepth, IsWithin};
ghost use Rattle.infiltration.specs.Depths.{IsRunoffStep};
ghost use Rattle.runoff.specs.Overland.{IsCover, IsFilledDepth, IsPlane};
ghost use Rattle.runoff.specs.RunoffStep.{PartInRange, SumInRange, subarea_step_of, sum_of, volume_of};

use crate::overland::{Plane, drain};
use crate::states::SubStep;
use crate::subareas::Subarea;
use fixed_num::quo;

// The depth on a subarea after a step, in nm, and what became of the rain on it.
#[derive(Clone, Copy, Debug)]
pub(crate) struct SubareaStep {
    pub depth: i64,
    pub volumes: SubStep,
}

// The volume of a depth on an area.
#[tactic(auto, using(fixed_num::proofs::Bounds::casts), unfolding(crate::specs::RunoffStep::volume_of))]
fn volume(area: i64, depth: i64) -> i128
    requires area { IsWithin (3 * 10 ^ 16) area }
    requires depth { IsFilledDepth depth }
    ensures value { result ≡ volume_of area depth }
    ensures range { IsWithin (10 ^ 27) result }
{
    quo(area as i128 * depth as i128, 1_000_000)
}

// A step of a subarea on which this rain falls, and whose soil takes so much of it.
#[tactic(auto, using(fixed_num::proofs::Bounds::casts), unfolding(crate::specs::RunoffStep::subarea_step_of))]
pub(crate) fn subarea_step(
    plane: &Plane,
    subarea: &Subarea,
    rain: i64,
    depth: i64,
    taken: i64,
    ms: i64,
) -> SubareaStep
    requires plane { IsPlane plane.now }
    requires area { IsWithin (3 * 10 ^ 16) subarea.now.area }
    requires cover { IsCover subarea.now.cover }
    requires rain { IsSmallDepth rain }
    requires depth { IsBetween (pos 0) depth (pos (10 ^ 16)) }
    requires taken { IsBetween (pos 0) taken (depth +ℤ rain) }
    requires time { IsRunoffStep ms }
    ensures value { result ≡ subarea_step_of plane.now subarea.now rain depth taken ms }
    ensures depth { IsBetween (pos 0) result.depth (depth +ℤ rain) }
    ensures volumes { PartInRange result.volumes }
{
    let water = drain(plane, &subarea.cover, ms, depth + rain - taken);
    let stored = volume(subarea.area, water.left) - volume(subarea.area, depth);
    SubareaStep {
        depth: water.left,
        volumes: SubStep {
            rain: volume(subarea.area, rain),
            infil: volume(subarea.area, taken),
            runoff: volume(subarea.area, water.runoff),
            stored,
        },
    }
}

// The volumes of two subareas.
pub(crate) fn sum(a: &SubStep, b: &SubStep) -> SubStep
    requires first { SumInRange a.now }
    requires second { PartInRange b.now }
    ensures { result ≡ sum_of a.now b.now }
{
    SubStep {
        rain: a.rain + b.rain,
        infil: a.infil + b.infil,
        runoff: a.runoff + b.runoff,
        stored: a.stored + b.stored,
    }
}
