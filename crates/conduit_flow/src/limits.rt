// What bounds the flow of a conduit's barrel.
ghost use Rattle.std.specs.Prelude.{◌≡◌, ◌*◌, ◌/◌, ◌^◌, ℤ, pos, ◌*ℤ◌, int_lt};
ghost use Rattle.std.specs.Int.RustNames.{unsigned_abs};
ghost use Rattle.fixed_num.specs.Ranges.{IsWithin, IsBetween, AreBarrels, IsFlow, IsFlowLimit};
ghost use Rattle.conduit_flow.specs.Conduits.{IsConduit, IsConduitTable};
ghost use Rattle.conduit_flow.specs.Geometry.{EndsInRange, IsFlowArea, IsTableWidth};
ghost use Rattle.conduit_flow.specs.Limits.{is_flatter as flatter_of, is_fast as fast_of, is_limited as limited_at};
ghost use Rattle.conduit_flow.specs.Limits.{limited_of, gated_of, from_dry as dry_of, supplied_of, greatest_of};
ghost use Rattle.conduit_flow.specs.Limits.{held_of};

use crate::conduit::ConduitData;
use crate::geometry::Ends;
use fixed_num::{cut, quo};
use net_types::Limiter;
use xsect_tables::{Table, reaches_celerity};

// Whether the water surface falls less than the conduit.
#[tactic(auto, using(fixed_num::proofs::Bounds::casts), unfolding(crate::specs::Limits::is_flatter))]
fn is_flatter(conduit: &ConduitData, ends: &Ends) -> bool
    requires conduit { IsConduit conduit.now }
    requires ends { EndsInRange ends.now }
    ensures { result ≡ flatter_of conduit.now ends.now }
{
    ends.surface1 - ends.surface2 < conduit.z1 - conduit.z2
}

// Whether a flow through an area of a width is at least as fast as a wave there.
#[tactic(auto, using(fixed_num::proofs::Bounds::casts), unfolding(crate::specs::Limits::is_fast))]
fn is_fast(q: i128, area: i64, width: i64) -> bool
    requires q { IsWithin (10 ^ 24) q }
    requires area { IsFlowArea area }
    requires width { IsTableWidth width }
    ensures { result ≡ fast_of q area width }
{
    if area <= 0 {
        return false;
    }
    reaches_celerity(quo(q * 1_000_000, area as i128), area, width)
}

// Whether a flow runs from the first end to the second.
fn runs_down(q: i128) -> bool
    ensures { result ≡ int_lt (pos 0) q }
{
    q > 0
}

// Whether a flow is held to the normal flow.
#[tactic(auto, using(fixed_num::proofs::Bounds::casts), unfolding(crate::specs::Limits::is_limited, crate::specs::Limits::is_heeded))]
fn is_limited(conduit: &ConduitData, table: &Table, ends: &Ends, q: i128) -> bool
    requires conduit { IsConduit conduit.now }
    requires table { IsConduitTable table.now }
    requires ends { EndsInRange ends.now }
    requires q { IsWithin (10 ^ 24) q }
    ensures { result ≡ limited_at conduit.now table.now ends.now q }
{
    if !runs_down(q) {
        return false;
    }
    if ends.depth1 >= table.full_height() {
        return false;
    }
    match conduit.limiter {
        Limiter::Slope => is_flatter(conduit, ends),
        Limiter::Froude => is_fast(q, ends.area1, ends.width1),
        Limiter::Both => {
            if is_flatter(conduit, ends) {
                return true;
            }
            is_fast(q, ends.area1, ends.width1)
        }
    }
}

// A flow held to the normal flow where it shows a sign of supercritical flow.
#[tactic(auto, using(fixed_num::proofs::Bounds::casts), unfolding(crate::specs::Limits::limited_of))]
pub(crate) fn limited(conduit: &ConduitData, table: &Table, ends: &Ends, q: i128) -> i128
    requires conduit { IsConduit conduit.now }
    requires table { IsConduitTable table.now }
    requires ends { EndsInRange ends.now }
    requires q { IsWithin (10 ^ 24) q }
    ensures value { result ≡ limited_of conduit.now table.now ends.now q }
    ensures range { IsWithin (10 ^ 24) result }
{
    if !is_limited(conduit, table, ends, q) {
        return q;
    }
    let drop = conduit.z1 - conduit.z2;
    q.min(table.normal_flow(ends.depth1, conduit.n6, drop, conduit.length))
}

// A flow that a flap gate does not let run back.
#[tactic(auto, using(fixed_num::proofs::Bounds::casts), unfolding(crate::specs::Limits::gated_of))]
pub(crate) fn gated(flap: bool, q: i128) -> i128
    ensures value { result ≡ gated_of flap q }
{
    if flap && q < 0 {
        return 0;
    }
    q
}

// Whether a flow runs out of a dry end.
#[tactic(auto, using(fixed_num::proofs::Bounds::casts), unfolding(crate::specs::Limits::from_dry))]
fn from_dry(ends: &Ends, q: i128) -> bool
    ensures { result ≡ dry_of ends.now q }
{
    (q > 0 && ends.depth1 == 0) || (q < 0 && ends.depth2 == 0)
}

// A flow that does not run out of a dry end.
#[tactic(auto, using(fixed_num::proofs::Bounds::casts), unfolding(crate::specs::Limits::supplied_of))]
pub(crate) fn supplied(ends: &Ends, q: i128) -> i128
    ensures value { result ≡ supplied_of ends.now q }
{
    if from_dry(ends, q) {
        return 0;
    }
    q
}

// What one barrel may carry of 10^12.
fn greatest_part(barrels: i64) -> i64
    requires { AreBarrels barrels }
    ensures { result ≡ pos (1_000_000_000_000 / unsigned_abs barrels) }
{
    if barrels == 1 {
        return 1_000_000_000_000;
    }
    (1_000_000_000_000 / barrels.unsigned_abs()) as i64
}

// The greatest flow of one barrel.
#[tactic(auto, using(fixed_num::proofs::Bounds::casts), unfolding(crate::specs::Limits::greatest_of))]
fn greatest(q_max: i64, barrels: i64) -> i64
    requires most { IsFlowLimit q_max }
    requires barrels { AreBarrels barrels }
    ensures value { result ≡ greatest_of q_max barrels }
    ensures range { IsBetween (pos 0) result (pos (10 ^ 12)) }
    // All barrels together carry no more than 10^12.
    ensures whole { IsBetween (pos 0) (barrels *ℤ result) (pos (10 ^ 12)) }
{
    let part = greatest_part(barrels);
    if q_max == 0 {
        return part;
    }
    q_max.min(part)
}

// A flow cut to the greatest one, either way.
#[tactic(auto, using(fixed_num::proofs::Bounds::casts), unfolding(crate::specs::Limits::held_of))]
pub(crate) fn held(q_max: i64, barrels: i64, q: i128) -> i64
    requires most { IsFlowLimit q_max }
    requires barrels { AreBarrels barrels }
    ensures value { result ≡ held_of q_max barrels q }
    ensures range { IsFlow result }
    ensures whole { IsFlow (barrels *ℤ result) }
{
    let most = greatest(q_max, barrels) as i128;
    cut(q, 0 - most, most) as i64
}
