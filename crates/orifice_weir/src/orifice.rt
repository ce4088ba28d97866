// The flow through an orifice.
ghost use Rattle.std.specs.Prelude.{◌≡◌, ◌*◌, ◌^◌, pos};
ghost use Rattle.fixed_num.specs.Ranges.{IsBetween, IsCoefficient, IsDepth, IsFall, IsHead, IsPart, IsWithin};
ghost use Rattle.orifice_weir.specs.OrificeFlow.{IsOrifice, contracted_of, discharge_of, half_of, jet_of, opening_of};
ghost use Rattle.orifice_weir.specs.OrificeFlow.{orifice_depth_of, orifice_flow_of, orifice_head_of};

use crate::heads::{directed, lower, part, upper};
use fixed_num::{GRAVITY, quo, root2};

/// An orifice: at the bottom of its first node or at the side, the elevation of its sill and its full height
/// in µm, and the
/// discharge coefficient in millionths.
#[derive(Clone, Copy, Debug, PartialEq, Eq)]
pub struct OrificeData {
    pub bottom: bool,
    pub sill: i64,
    pub full: i64,
    pub cd6: i64,
}

// How high the opening is.
#[tactic(auto, using(fixed_num::proofs::Bounds::casts), unfolding(crate::specs::OrificeFlow::opening_of))]
fn opening(orifice: &OrificeData, setting: i64) -> i64
    requires orifice { IsOrifice orifice.now }
    requires setting { IsPart setting }
    ensures value { result ≡ opening_of orifice.now setting }
    ensures range { IsDepth result }
{
    part(orifice.full, setting)
}

/// Up to which depth the opening of an orifice is filled, in µm: at most its full height, and below 0 where no head
/// reaches it.
///
/// `setting` is in millionths; `near` and `far` are the heads at its ends (µm, ±2·10^10).
/// Source: this project's profile.
#[tactic(auto, using(fixed_num::proofs::Bounds::casts), unfolding(crate::specs::OrificeFlow::orifice_depth_of))]
pub fn orifice_depth(orifice: &OrificeData, setting: i64, near: i64, far: i64) -> i64
    requires orifice { IsOrifice orifice.now }
    requires setting { IsPart setting }
    requires near { IsHead near }
    requires far { IsHead far }
    ensures value { result ≡ orifice_depth_of orifice.now setting near far }
    ensures range { IsFall result }
{
    let opening = opening(orifice, setting);
    if orifice.bottom {
        return opening;
    }
    upper(near, far, orifice.sill).min(opening)
}

// Half a depth.
#[tactic(auto, using(fixed_num::proofs::Bounds::casts), unfolding(crate::specs::OrificeFlow::half_of))]
fn half(depth: i64) -> i64
    requires { IsFall depth }
    ensures value { result ≡ half_of depth }
    ensures range { IsFall result }
{
    quo(depth as i128, 2) as i64
}

// The head that drives the flow.
#[tactic(auto, using(fixed_num::proofs::Bounds::casts), unfolding(crate::specs::OrificeFlow::orifice_head_of))]
fn orifice_head(orifice: &OrificeData, setting: i64, near: i64, far: i64) -> i64
    requires orifice { IsOrifice orifice.now }
    requires setting { IsPart setting }
    requires near { IsHead near }
    requires far { IsHead far }
    ensures value { result ≡ orifice_head_of orifice.now setting near far }
    ensures range { IsWithin (8 * 10 ^ 10) result }
{
    let high = upper(near, far, orifice.sill);
    let low = lower(near, far, orifice.sill);
    if orifice.bottom {
        return high - low;
    }
    high - low.max(half(orifice_depth(orifice, setting, near, far)))
}

// The area that counts.
#[tactic(auto, using(fixed_num::proofs::Bounds::casts), unfolding(crate::specs::OrificeFlow::contracted_of))]
fn contracted(cd6: i64, area: i64) -> i64
    requires cd6 { IsCoefficient cd6 }
    requires area { IsBetween (pos 0) area (pos 100_000_000_000) }
    ensures value { result ≡ contracted_of cd6 area }
    ensures range { IsBetween (pos 0) result (pos 10_000_000_000_000) }
{
    quo(cd6 as i128 * area as i128, 1_000_000) as i64
}

// The speed that a head gives.
#[tactic(auto, using(fixed_num::proofs::Bounds::casts), unfolding(crate::specs::OrificeFlow::jet_of))]
fn jet(head: i64) -> i64
    requires { IsBetween (pos 0) head (pos 80_000_000_000) }
    ensures value { result ≡ jet_of head }
    ensures range { IsBetween (pos 0) result (pos 1_300_000_000) }
{
    root2(2 * GRAVITY * head as i128) as i64
}

// The flow of a speed through an area.
#[tactic(auto, using(fixed_num::proofs::Bounds::casts), unfolding(crate::specs::OrificeFlow::discharge_of))]
fn discharge(area: i64, speed: i64) -> i128
    requires area { IsBetween (pos 0) area (pos 10_000_000_000_000) }
    requires speed { IsBetween (pos 0) speed (pos 1_300_000_000) }
    ensures value { result ≡ discharge_of area speed }
    ensures range { IsBetween (pos 0) result (pos (10 ^ 30)) }
{
    quo(area as i128 * speed as i128, 1_000_000)
}

/// The flow through an orifice, in cm³/s, from its first end to its second where that is positive.
///
/// `setting` is in millionths; `near` and `far` are the heads at its ends (µm, ±2·10^10); `area` is the area
/// of its opening
/// up to the depth that [`orifice_depth`] gives (mm², 0 to 10^11). The flow is within 10^30, before it is
/// relaxed and bounded.
/// Source: Reference Manual volume II, chapter 6; the rounding is this project's profile.
pub fn orifice_flow(orifice: &OrificeData, setting: i64, near: i64, far: i64, area: i64) -> i128
    requires orifice { IsOrifice orifice.now }
    requires setting { IsPart setting }
    requires near { IsHead near }
    requires far { IsHead far }
    requires area { IsBetween (pos 0) area (pos 100_000_000_000) }
    ensures value { result ≡ orifice_flow_of orifice.now setting near far area }
    ensures range { IsWithin (10 ^ 30) result }
{
    if upper(near, far, orifice.sill) <= 0 {
        return 0;
    }
    if opening(orifice, setting) == 0 {
        return 0;
    }
    let head = orifice_head(orifice, setting, near, far);
    if head <= 0 {
        return 0;
    }
    let counted = contracted(orifice.cd6, area);
    directed(near, far, discharge(counted, jet(head)))
}
