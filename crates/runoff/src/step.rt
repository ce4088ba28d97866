// A step of runoff of a subcatchment.
ghost use Rattle.std.specs.Prelude.{◌≡◌, ◌*◌, ◌^◌, pos, ◌+ℤ◌};
ghost use Rattle.fixed_num.specs.Lists.{number};
ghost use Rattle.fixed_num.specs.Ranges.{IsBetween, IsRate, IsWithin};
ghost use Rattle.runoff.specs.Overland.{IsPlane};
ghost use Rattle.infiltration.specs.Depths.{IsRunoffStep, depth_of};
ghost use Rattle.infiltration.specs.Infiltration.{GrowsSlowly, state_after};
ghost use Rattle.net_types.specs.Ranges.{SubInRange};
ghost use Rattle.runoff.specs.RunoffStep.{IsRunoffFlow, IsSubState, PartInRange, StepInRange, SubGrowsSlowly};
ghost use Rattle.runoff.specs.RunoffStep.{SumInRange, bare_step_of, flow_of, paved_step_of, pervious_step_of};
ghost use Rattle.runoff.specs.RunoffStep.{soaked_of, sub_state_after, sub_step_of, sum_of};
ghost use Rattle.runoff.specs.Subareas.{IsSubcatchment, infil_or, plane_of};

use crate::overland::Plane;
use crate::states::{SubState, SubStep};
use crate::subarea_step::{SubareaStep, subarea_step, sum};
use crate::subareas::{bare, infil_in, paved, pervious, plane};
use fixed_num::{cut, quo};
use infiltration::{InfilState, depth_over, infiltrate};
use net_types::Sub;

// What the soil of a subcatchment took in a step, in nm, and its state after it.
#[derive(Clone, Copy, Debug)]
struct SoilStep {
    taken: i64,
    infil: InfilState,
}

// What the soil takes of the rain and of what stands on the pervious subarea.
fn soak(sub: &Sub, state: &SubState, rate: i64, ms: i64) -> SoilStep
    requires sub { IsSubcatchment sub.now }
    requires rate { IsRate rate }
    requires time { IsRunoffStep ms }
    requires state { IsSubState sub.now state.now }
    ensures taken { result.taken ≡ soaked_of sub.now state.now rate ms }
    ensures infil { result.infil
        ≡ state_after (infil_or sub.now.infil) state.now.infil (depth_of rate ms)
        (number state.now.depths 0 +ℤ depth_of rate ms) ms }
    ensures range { IsBetween (pos 0) result.taken (number state.now.depths 0 +ℤ depth_of rate ms) }
    ensures growth { GrowsSlowly (infil_or sub.now.infil) ms state.now.infil result.infil }
{
    let rain = depth_over(rate, ms);
    let mut infil = state.infil;
    let taken = infiltrate(&infil_in(sub), &mut infil, rain, state.depths[0] + rain, ms);
    SoilStep { taken, infil }
}

// The step of the pervious subarea.
fn pervious_step(
    sub: &Sub,
    plane: &Plane,
    state: &SubState,
    rate: i64,
    ms: i64,
    taken: i64,
) -> SubareaStep
    requires sub { SubInRange sub.now }
    requires plane { plane.now ≡ plane_of sub.now }
    requires plane_range { IsPlane plane.now }
    requires rate { IsRate rate }
    requires time { IsRunoffStep ms }
    requires depth { IsBetween (pos 0) (number state.now.depths 0) (pos (10 ^ 16)) }
    requires taken { taken ≡ soaked_of sub.now state.now rate ms }
    requires range { IsBetween (pos 0) taken (number state.now.depths 0 +ℤ depth_of rate ms) }
    ensures value { result ≡ pervious_step_of sub.now state.now rate ms }
    ensures depth { IsBetween (pos 0) result.depth (number state.now.depths 0 +ℤ depth_of rate ms) }
    ensures volumes { PartInRange result.volumes }
{
    let rain = depth_over(rate, ms);
    subarea_step(plane, &pervious(sub), rain, state.depths[0], taken, ms)
}

// The step of the impervious subarea without depression storage.
fn bare_step(sub: &Sub, plane: &Plane, state: &SubState, rate: i64, ms: i64) -> SubareaStep
    requires sub { SubInRange sub.now }
    requires plane { plane.now ≡ plane_of sub.now }
    requires plane_range { IsPlane plane.now }
    requires rate { IsRate rate }
    requires time { IsRunoffStep ms }
    requires depth { IsBetween (pos 0) (number state.now.depths 1) (pos (10 ^ 16)) }
    ensures value { result ≡ bare_step_of sub.now state.now rate ms }
    ensures depth { IsBetween (pos 0) result.depth (number state.now.depths 1 +ℤ depth_of rate ms) }
    ensures volumes { PartInRange result.volumes }
{
    let rain = depth_over(rate, ms);
    subarea_step(plane, &bare(sub), rain, state.depths[1], 0, ms)
}

// The step of the impervious subarea with depression storage.
fn paved_step(sub: &Sub, plane: &Plane, state: &SubState, rate: i64, ms: i64) -> SubareaStep
    requires sub { SubInRange sub.now }
    requires plane { plane.now ≡ plane_of sub.now }
    requires plane_range { IsPlane plane.now }
    requires rate { IsRate rate }
    requires time { IsRunoffStep ms }
    requires depth { IsBetween (pos 0) (number state.now.depths 2) (pos (10 ^ 16)) }
    ensures value { result ≡ paved_step_of sub.now state.now rate ms }
    ensures depth { IsBetween (pos 0) result.depth (number state.now.depths 2 +ℤ depth_of rate ms) }
    ensures volumes { PartInRange result.volumes }
{
    let rain = depth_over(rate, ms);
    subarea_step(plane, &paved(sub), rain, state.depths[2], 0, ms)
}

// What the rain became on all three.
fn whole(pervious: &SubStep, bare: &SubStep, paved: &SubStep) -> SubStep
    requires pervious { PartInRange pervious.now }
    requires bare { PartInRange bare.now }
    requires paved { PartInRange paved.now }
    ensures value { result ≡ sum_of (sum_of pervious.now bare.now) paved.now }
    ensures range { StepInRange result }
{
    sum(&pair(pervious, bare), paved)
}

// What it became on two.
fn pair(pervious: &SubStep, bare: &SubStep) -> SubStep
    requires pervious { PartInRange pervious.now }
    requires bare { PartInRange bare.now }
    ensures value { result ≡ sum_of pervious.now bare.now }
    ensures range { SumInRange result }
{
    sum(pervious, bare)
}

// The flow of a volume that runs off in a step.
#[tactic(auto, using(fixed_num::proofs::Bounds::casts), unfolding(crate::specs::RunoffStep::flow_of))]
fn flow(volume: i128, ms: i64) -> i64
    requires volume { IsWithin (10 ^ 28) volume }
    requires time { IsRunoffStep ms }
    ensures value { result ≡ flow_of volume ms }
    ensures range { IsRunoffFlow result }
{
    cut(quo(volume, ms as i128), 0, 1_000_000_000_000) as i64
}

/// A step of runoff of a subcatchment: what the rain of the step became, and the state after it.
///
/// `rate` is the rate of the rain over the step (nm/h, 0 to 10^10), `ms` the length of the step (1,000 to
/// 3,600,000 ms). The
/// depths and the numbers of the state are up to 10^16, and grow by at most 2,778 a millisecond.
/// Source: Reference Manual volume I, chapter 3; the substeps and the accounts are this project's profile.
pub fn step_sub(sub: &Sub, rate: i64, ms: i64, state: &mut SubState) -> SubStep
    requires sub { IsSubcatchment sub.now }
    requires rate { IsRate rate }
    requires time { IsRunoffStep ms }
    requires state { IsSubState sub.now state.old }
    ensures step { result ≡ sub_step_of sub.now state.old rate ms }
    ensures after { state.new ≡ sub_state_after sub.now state.old rate ms }
    ensures range { StepInRange result }
    ensures growth { SubGrowsSlowly sub.now ms state.old state.new }
{
    let before = *state;
    let soil = soak(sub, &before, rate, ms);
    let plane = plane(sub);
    let pervious = pervious_step(sub, &plane, &before, rate, ms, soil.taken);
    let bare = bare_step(sub, &plane, &before, rate, ms);
    let paved = paved_step(sub, &plane, &before, rate, ms);
    let step = whole(&pervious.volumes, &bare.volumes, &paved.volumes);
    *state = SubState {
        depths: [pervious.depth, bare.depth, paved.depth],
        infil: soil.infil,
        flow: flow(step.runoff, ms),
    };
    step
}
