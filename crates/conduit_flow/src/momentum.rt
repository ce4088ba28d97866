// The momentum equation of a conduit.
ghost use Rattle.std.specs.Prelude.{◌≡◌, ◌*◌, ◌^◌, ℤ, pos, ◌*ℤ◌};
ghost use Rattle.fixed_num.specs.Ranges.{IsWithin, IsBetween, IsConduitLength, IsFlow, IsRoughness, IsFall};
ghost use Rattle.fixed_num.specs.Ranges.{IsStepLength};
ghost use Rattle.phase_law.specs.Ranges.{LinkFixedInRange};
ghost use Rattle.conduit_flow.specs.Conduits.{IsConduit};
ghost use Rattle.conduit_flow.specs.Geometry.{EndsInRange, IsFlowArea, IsWet};
ghost use Rattle.conduit_flow.specs.Momentum.{IsInertia, velocity_of, flow_speed_of, froude_of, partial_of, inertia_of};
ghost use Rattle.conduit_flow.specs.Momentum.{local_of, convective_of, pressure_of, radius_power_of};
ghost use Rattle.conduit_flow.specs.Momentum.{friction_of, end_speed_of, is_lossless as lossless_of, losses_of};
ghost use Rattle.conduit_flow.specs.Momentum.{slowed_of, driven_of};
ghost use Rattle.conduit_flow.specs.Momentum.{momentum_flow_of};

use crate::conduit::ConduitData;
use crate::geometry::{Ends, Middle};
use fixed_num::{GRAVITY, cut, quo};
use net_types::Damping;
use phase_law::LinkFixed;
use quick_quotients::quick_root3;

// The velocity of a flow through an area, in µm/s.
#[tactic(auto, using(fixed_num::proofs::Bounds::casts), unfolding(crate::specs::Momentum::velocity_of))]
fn velocity(flow: i64, area: i64) -> i64
    requires flow { IsFlow flow }
    requires area { IsBetween (pos 1) area (pos (5 * 10 ^ 11)) }
    ensures value { result ≡ velocity_of flow area }
    ensures range { IsWithin 15_240_000 result }
{
    cut(
        quo(flow as i128 * 1_000_000, area as i128),
        -15_240_000,
        15_240_000,
    ) as i64
}

// The speed of a flow through an area, in µm/s.
#[tactic(auto, using(fixed_num::proofs::Bounds::casts), unfolding(crate::specs::Momentum::flow_speed_of))]
pub(crate) fn flow_speed(flow: i64, area: i64) -> i64
    requires flow { IsFlow flow }
    requires area { IsBetween (pos 1) area (pos (5 * 10 ^ 11)) }
    ensures value { result ≡ flow_speed_of flow area }
    ensures range { IsBetween (pos 0) result (pos 15_240_000) }
{
    let speed = quo(flow.unsigned_abs() as i128 * 1_000_000, area as i128);
    15_240_000_i128.min(speed) as i64
}

// The Froude number of a flow, in millionths.
#[tactic(auto, using(fixed_num::proofs::Bounds::casts), unfolding(crate::specs::Momentum::froude_of))]
fn froude(velocity: i64, wave: i64) -> i128
    requires velocity { IsWithin 15_240_000 velocity }
    requires wave { IsBetween (pos 0) wave (pos (10 ^ 16)) }
    ensures { result ≡ froude_of velocity wave }
{
    quo(
        velocity.unsigned_abs() as i128 * 1_000_000,
        1_i64.max(wave) as i128,
    )
}

// How far inertia counts at a Froude number, in millionths.
#[tactic(auto, using(fixed_num::proofs::Bounds::casts), unfolding(crate::specs::Momentum::partial_of))]
fn partial(froude: i128) -> i64
    ensures value { result ≡ partial_of froude }
    ensures range { IsInertia result }
{
    if froude <= 500_000 {
        return 1_000_000;
    }
    if froude >= 1_000_000 {
        return 0;
    }
    2 * (1_000_000 - froude as i64)
}

// How far inertia counts by the kind of damping, in millionths.
#[tactic(auto, using(fixed_num::proofs::Bounds::casts), unfolding(crate::specs::Momentum::inertia_of))]
fn inertia(damping: Damping, middle: &Middle, velocity: i64) -> i64
    requires middle { IsWet middle.now }
    requires velocity { IsWithin 15_240_000 velocity }
    ensures value { result ≡ inertia_of damping middle.now velocity }
    ensures range { IsInertia result }
{
    match damping {
        Damping::Zero => 1_000_000,
        Damping::Full => 0,
        Damping::Partial => partial_inertia(middle, velocity),
    }
}

// How far inertia counts where it is damped by the Froude number: not at all in a closed section that is full.
fn partial_inertia(middle: &Middle, velocity: i64) -> i64
    requires middle { IsWet middle.now }
    requires velocity { IsWithin 15_240_000 velocity }
    ensures value { result ≡ inertia_of Damping.Partial middle.now velocity }
    ensures range { IsInertia result }
{
    if middle.pressurized {
        return 0;
    }
    partial(froude(velocity, middle.wave))
}

// The flow that the change of the area of flow since the step's start adds, in cm³/s.
#[tactic(auto, using(fixed_num::proofs::Bounds::casts), unfolding(crate::specs::Momentum::local_of))]
fn local(inertia: i64, velocity: i64, change: i64) -> i128
    requires inertia { IsInertia inertia }
    requires velocity { IsWithin 15_240_000 velocity }
    requires change { IsWithin (2 * 10 ^ 12) change }
    ensures value { result ≡ local_of inertia velocity change }
    ensures range { IsWithin (10 ^ 14) result }
{
    if inertia == 0 {
        return 0;
    }
    quo(
        2 * inertia as i128 * velocity as i128 * change as i128,
        1_000_000_000_000,
    )
}

// Inertia by the step's length, over four. Both are even, so nothing is lost.
fn weight(inertia: i64, dt: i64) -> i64
    requires inertia { IsInertia inertia }
    requires dt { IsStepLength dt }
    ensures value { pos 4 *ℤ result ≡ inertia *ℤ dt }
    ensures range { IsBetween (pos 0) result (pos 900_000_000_000) }
{
    inertia * dt / 4
}

// The flow that the rise of the area of flow along the conduit adds in a step, in cm³/s. Both sides of the quotient
// are divided by four, so that the numerator fits 128 bits at the ends of all ranges.
fn convective(inertia: i64, velocity: i64, rise: i64, dt: i64, length: i64) -> i128
    requires inertia { IsInertia inertia }
    requires velocity { IsWithin 15_240_000 velocity }
    requires rise { IsWithin (5 * 10 ^ 11) rise }
    requires dt { IsStepLength dt }
    requires length { IsConduitLength length }
    ensures value { result ≡ convective_of inertia velocity rise dt length }
    ensures range { IsWithin (10 ^ 20) result }
{
    if inertia == 0 {
        return 0;
    }
    let weight = weight(inertia, dt);
    let push = velocity as i128 * velocity as i128 * rise as i128;
    quo(weight as i128 * push, 250_000_000_000_000 * length as i128)
}

// The flow that the pressure adds in a step, in cm³/s. Both sides of the quotient are divided by 160, so that most
// numerators fit 64 bits.
#[tactic(auto, using(fixed_num::proofs::Bounds::casts), unfolding(crate::specs::Momentum::pressure_of))]
fn pressure(area: i64, fall: i64, dt: i64, length: i64) -> i128
    requires area { IsBetween (pos 1) area (pos (5 * 10 ^ 11)) }
    requires fall { IsFall fall }
    requires dt { IsStepLength dt }
    requires length { IsConduitLength length }
    ensures value { result ≡ pressure_of area fall dt length }
    ensures range { IsWithin (10 ^ 23) result }
{
    quo(
        61_341 * area as i128 * fall as i128 * dt as i128,
        6_250_000 * length as i128,
    )
}

// The four thirds power of the hydraulic radius.
#[tactic(auto, using(fixed_num::proofs::Bounds::casts), unfolding(crate::specs::Momentum::radius_power_of))]
fn radius_power(radius: i64) -> i128
    requires radius { IsBetween (pos 1) radius (pos (3 * 10 ^ 13)) }
    ensures value { result ≡ radius_power_of radius }
    ensures range { IsBetween (pos 1) result (pos (10 ^ 22)) }
{
    radius as i128 * quick_root3(radius as i128 * 1_000_000_000)
}

// The part of the flow that friction takes in a step, in 10^-9 of the flow.
#[tactic(auto, using(fixed_num::proofs::Bounds::casts), unfolding(crate::specs::Momentum::friction_of))]
fn friction(n6: i64, velocity: i64, dt: i64, radius: i64) -> i128
    requires roughness { IsRoughness n6 }
    requires velocity { IsWithin 15_240_000 velocity }
    requires dt { IsStepLength dt }
    requires radius { IsBetween (pos 1) radius (pos (3 * 10 ^ 13)) }
    ensures value { result ≡ friction_of n6 velocity dt radius }
    ensures range { IsBetween (pos 0) result (pos (10 ^ 26)) }
{
    let drag = GRAVITY * (n6 as i128 * n6 as i128) * velocity.unsigned_abs() as i128 * dt as i128;
    quo(drag, 10_000_000 * radius_power(radius))
}

// The speed of a flow at an end, in µm/s.
#[tactic(auto, using(fixed_num::proofs::Bounds::casts), unfolding(crate::specs::Momentum::end_speed_of))]
fn end_speed(flow: i64, area: i64) -> i64
    requires flow { IsFlow flow }
    requires area { IsFlowArea area }
    ensures value { result ≡ end_speed_of flow area }
    ensures range { IsBetween (pos 0) result (pos 15_240_000) }
{
    if area == 0 {
        return 0;
    }
    flow_speed(flow, area)
}

// Whether a conduit has no losses.
fn is_lossless(conduit: &ConduitData) -> bool
    ensures { result ≡ lossless_of conduit.now }
{
    conduit.entry6 == 0 && conduit.exit6 == 0 && conduit.avg6 == 0
}

// The part of the flow that the losses at the ends and on the way take in a step, in 10^-9 of the flow.
#[tactic(auto, using(fixed_num::proofs::Bounds::casts), unfolding(crate::specs::Momentum::losses_of))]
fn losses(conduit: &ConduitData, ends: &Ends, velocity: i64, last: i64, dt: i64) -> i128
    requires conduit { IsConduit conduit.now }
    requires ends { EndsInRange ends.now }
    requires velocity { IsWithin 15_240_000 velocity }
    requires last { IsFlow last }
    requires dt { IsStepLength dt }
    ensures value { result ≡ losses_of conduit.now ends.now velocity last dt }
    ensures range { IsBetween (pos 0) result (pos (10 ^ 19)) }
{
    if is_lossless(conduit) {
        return 0;
    }
    let entry = conduit.entry6 as i128 * end_speed(last, ends.area1) as i128;
    let exit = conduit.exit6 as i128 * end_speed(last, ends.area2) as i128;
    let way = conduit.avg6 as i128 * velocity.unsigned_abs() as i128;
    quo(
        (entry + exit + way) * dt as i128,
        2 * conduit.length as i128,
    )
}

// A driven flow, slowed by friction and losses.
#[tactic(auto, using(fixed_num::proofs::Bounds::casts), unfolding(crate::specs::Momentum::slowed_of))]
fn slowed(driven: i128, friction: i128, losses: i128) -> i128
    requires driven { IsWithin (2 * 10 ^ 23) driven }
    requires friction { IsBetween (pos 0) friction (pos (10 ^ 26)) }
    requires losses { IsBetween (pos 0) losses (pos (10 ^ 19)) }
    ensures value { result ≡ slowed_of driven friction losses }
    ensures range { IsWithin (10 ^ 24) result }
{
    quo(driven * 1_000_000_000, 1_000_000_000 + friction + losses)
}

// The flow of one barrel at the step's start, with what inertia and pressure add.
#[tactic(auto, using(fixed_num::proofs::Bounds::casts), unfolding(crate::specs::Momentum::driven_of))]
fn driven(
    conduit: &ConduitData,
    fixed: &LinkFixed,
    ends: &Ends,
    middle: &Middle,
    velocity: i64,
    old: i64,
) -> i128
    requires conduit { IsConduit conduit.now }
    requires fixed { LinkFixedInRange fixed.now }
    requires ends { EndsInRange ends.now }
    requires middle { IsWet middle.now }
    requires velocity { IsWithin 15_240_000 velocity }
    requires old { IsFlow old }
    ensures value { result ≡ driven_of conduit.now fixed.now ends.now middle.now velocity old }
    ensures range { IsWithin (2 * 10 ^ 23) result }
{
    let length = conduit.length;
    let inertia = inertia(conduit.damping, middle, velocity);
    let local = local(inertia, velocity, middle.area - fixed.a_old);
    let rise = ends.area2 - ends.area1;
    let convective = convective(inertia, velocity, rise, fixed.dt, length);
    let fall = ends.surface1 - ends.surface2;
    let pressure = pressure(middle.area, fall, fixed.dt, length);
    old as i128 + local + convective + pressure
}

// The flow of one barrel that the momentum equation gives.
#[tactic(auto, using(fixed_num::proofs::Bounds::casts), unfolding(crate::specs::Momentum::momentum_flow_of))]
pub(crate) fn momentum_flow(
    conduit: &ConduitData,
    fixed: &LinkFixed,
    ends: &Ends,
    middle: &Middle,
    old: i64,
    last: i64,
) -> i128
    requires conduit { IsConduit conduit.now }
    requires fixed { LinkFixedInRange fixed.now }
    requires ends { EndsInRange ends.now }
    requires middle { IsWet middle.now }
    requires old { IsFlow old }
    requires last { IsFlow last }
    ensures value { result ≡ momentum_flow_of conduit.now fixed.now ends.now middle.now old last }
    ensures range { IsWithin (10 ^ 24) result }
{
    let velocity = velocity(last, middle.area);
    let driven = driven(conduit, fixed, ends, middle, velocity, old);
    let friction = friction(conduit.n6, velocity, fixed.dt, middle.radius);
    let losses = losses(conduit, ends, velocity, last, fixed.dt);
    slowed(driven, friction, losses)
}

#[test]
fn pressure_drives_a_reach_that_fills(rt: HostRuntime) {
    assert_eq!(rt; pressure(1_000_000, 0, 10_000, 100_000_000), 0);
    assert_eq!(rt; pressure(1_005_000, 10_000, 10_000, 100_000_000), 9_864);
    assert_eq!(rt; pressure(1_004_939, 9_877, 10_000, 100_000_000), 9_742);
    assert_eq!(rt; pressure(1_009_449, 18_897, 10_000, 100_000_000), 18_722);
}

#[test]
fn friction_slows_a_reach_that_fills(rt: HostRuntime) {
    assert_eq!(rt; velocity(4_932, 1_004_939), 4_908);
    assert_eq!(rt; velocity(14_671, 1_009_449), 14_534);
    assert_eq!(rt; friction(10_000, 0, 10_000, 333_887), 0);
    assert_eq!(rt; friction(10_000, 4_908, 10_000, 333_880), 207_964);
    assert_eq!(rt; friction(10_000, 14_534, 10_000, 334_377), 614_625);
}
