// The flow over a weir.
ghost use Rattle.std.specs.Prelude.{◌≡◌, ◌*◌, ◌^◌, pos};
ghost use Rattle.fixed_num.specs.Ranges.{IsBetween, IsCoefficient, IsDepth, IsFullHeight, IsHead, IsPart, IsWaterDepth};
ghost use Rattle.fixed_num.specs.Ranges.{IsWidth, IsWithin};
ghost use Rattle.orifice_weir.specs.WeirFlow.{IsWeir, clear_width_of, contraction_of, crest_of, crested_flow_of};
ghost use Rattle.orifice_weir.specs.WeirFlow.{free_flow_of, head_power_of, notch_of, scaled_of, side_slope_of};
ghost use Rattle.orifice_weir.specs.WeirFlow.{transverse_of, weir_flow_of};

use crate::heads::{directed, lower, part, upper};
use crate::submergence::{root6, submerged};
use fixed_num::quo;

/// A weir: a V-notch or a transverse one, the elevation of its crest, the full height of its opening and its
/// width (that of
/// the top of a V-notch) in µm, the metric discharge coefficient in millionths, and 0 to 2 end contractions.
#[derive(Clone, Copy, Debug, PartialEq, Eq)]
pub struct WeirData {
    pub notch: bool,
    pub crest: i64,
    pub full: i64,
    pub width: i64,
    pub c6: i64,
    pub contractions: i64,
}

// The crest, raised by what the setting shuts.
#[tactic(auto, using(fixed_num::proofs::Bounds::casts), unfolding(crate::specs::WeirFlow::crest_of))]
fn crest(weir: &WeirData, setting: i64) -> i64
    requires weir { IsWeir weir.now }
    requires setting { IsPart setting }
    ensures value { result ≡ crest_of weir.now setting }
    ensures range { IsHead result }
{
    weir.crest + part(weir.full, 1_000_000 - setting)
}

// What the end contractions take of a width.
#[tactic(auto, using(fixed_num::proofs::Bounds::casts), unfolding(crate::specs::WeirFlow::contraction_of))]
fn contraction(contractions: i64, head: i64) -> i64
    requires contractions { IsBetween (pos 0) contractions (pos 2) }
    requires head { IsDepth head }
    ensures value { result ≡ contraction_of contractions head }
    ensures range { IsDepth result }
{
    quo(contractions as i128 * head as i128, 10) as i64
}

// The width less what the end contractions take.
#[tactic(auto, using(fixed_num::proofs::Bounds::casts), unfolding(crate::specs::WeirFlow::clear_width_of))]
fn clear_width(width: i64, contractions: i64, head: i64) -> i64
    requires width { IsWidth width }
    requires contractions { IsBetween (pos 0) contractions (pos 2) }
    requires head { IsDepth head }
    ensures value { result ≡ clear_width_of width contractions head }
    ensures range { IsWidth result }
{
    (width - contraction(contractions, head)).max(0)
}

// The flow over a transverse weir.
#[tactic(auto, using(fixed_num::proofs::Bounds::casts), unfolding(crate::specs::WeirFlow::transverse_of))]
fn transverse(c6: i64, width: i64, head: i64, root: i64) -> i128
    requires c6 { IsCoefficient c6 }
    requires width { IsWidth width }
    requires head { IsDepth head }
    requires root { IsBetween (pos 0) root (pos 31_622_776) }
    ensures value { result ≡ transverse_of c6 width head root }
    ensures range { IsBetween (pos 0) result (pos (10 ^ 24)) }
{
    quo(
        c6 as i128 * width as i128 * head as i128 * root as i128,
        1_000_000_000_000_000_000,
    )
}

// Half the top width of a V-notch over its height.
#[tactic(auto, using(fixed_num::proofs::Bounds::casts), unfolding(crate::specs::WeirFlow::side_slope_of))]
fn side_slope(width: i64, full: i64) -> i64
    requires width { IsWidth width }
    requires full { IsFullHeight full }
    ensures value { result ≡ side_slope_of width full }
    ensures range { IsBetween (pos 0) result (pos 5_000_000_000_000) }
{
    quo(width as i128 * 1_000_000, 2 * full as i128) as i64
}

// The product of two numbers of millionths.
#[tactic(auto, using(fixed_num::proofs::Bounds::casts), unfolding(crate::specs::WeirFlow::scaled_of))]
fn scaled(a: i64, b: i64) -> i64
    requires a { IsBetween (pos 0) a (pos 1_000_000_000) }
    requires b { IsBetween (pos 0) b (pos 5_000_000_000_000) }
    ensures value { result ≡ scaled_of a b }
    ensures range { IsBetween (pos 0) result (pos 5_000_000_000_000_000) }
{
    quo(a as i128 * b as i128, 1_000_000) as i64
}

// The flow through a V-notch.
#[tactic(auto, using(fixed_num::proofs::Bounds::casts), unfolding(crate::specs::WeirFlow::notch_of))]
fn notch(slope: i64, head: i64, power: i64) -> i128
    requires slope { IsBetween (pos 0) slope (pos 5_000_000_000_000_000) }
    requires head { IsDepth head }
    requires power { IsBetween (pos 0) power (pos 50_000_000_000) }
    ensures value { result ≡ notch_of slope head power }
    ensures range { IsBetween (pos 0) result (pos (10 ^ 24)) }
{
    quo(
        slope as i128 * head as i128 * power as i128,
        1_000_000_000_000,
    )
}

// The product of a head and its root.
#[tactic(auto, using(fixed_num::proofs::Bounds::casts), unfolding(crate::specs::WeirFlow::head_power_of))]
fn head_power(head: i64, root: i64) -> i64
    requires head { IsDepth head }
    requires root { IsBetween (pos 0) root (pos 31_622_776) }
    ensures value { result ≡ head_power_of head root }
    ensures range { IsBetween (pos 0) result (pos 50_000_000_000) }
{
    quo(head as i128 * root as i128, 1_000_000) as i64
}

// The flow of a head over the crest, where nothing stands against it.
#[tactic(auto, using(fixed_num::proofs::Bounds::casts), unfolding(crate::specs::WeirFlow::free_flow_of))]
fn free_flow(weir: &WeirData, head: i64) -> i128
    requires weir { IsWeir weir.now }
    requires head { IsDepth head }
    ensures value { result ≡ free_flow_of weir.now head }
    ensures range { IsBetween (pos 0) result (pos (10 ^ 24)) }
{
    let root = root6(head);
    if weir.notch {
        let slope = scaled(weir.c6, side_slope(weir.width, weir.full));
        return notch(slope, head, head_power(head, root));
    }
    transverse(
        weir.c6,
        clear_width(weir.width, weir.contractions, head),
        head,
        root,
    )
}

// The flow of two heads over the crest.
#[tactic(auto, using(fixed_num::proofs::Bounds::casts), unfolding(crate::specs::WeirFlow::crested_flow_of))]
fn crested_flow(weir: &WeirData, high: i64, low: i64) -> i128
    requires weir { IsWeir weir.now }
    requires high { IsBetween (pos 1) high (pos 40_000_000_000) }
    requires low { IsWaterDepth low }
    ensures value { result ≡ crested_flow_of weir.now high low }
    ensures range { IsBetween (pos 0) result (pos (10 ^ 30)) }
{
    let head = high.min(weir.full);
    submerged(low.min(head), head, free_flow(weir, head))
}

/// The flow over a weir, in cm³/s, from its first end to its second where that is positive.
///
/// `setting` is in millionths; `near` and `far` are the heads at its ends (µm, ±2·10^10). The flow is within
/// 10^30, before
/// it is relaxed and bounded.
/// Source: Reference Manual volume II, chapter 6; the rounding is this project's profile.
#[tactic(auto, using(fixed_num::proofs::Bounds::casts), unfolding(crate::specs::WeirFlow::weir_flow_of))]
pub fn weir_flow(weir: &WeirData, setting: i64, near: i64, far: i64) -> i128
    requires weir { IsWeir weir.now }
    requires setting { IsPart setting }
    requires near { IsHead near }
    requires far { IsHead far }
    ensures value { result ≡ weir_flow_of weir.now setting near far }
    ensures range { IsWithin (10 ^ 30) result }
{
    let crest = crest(weir, setting);
    let high = upper(near, far, crest);
    if high <= 0 {
        return 0;
    }
    directed(near, far, crested_flow(weir, high, lower(near, far, crest)))
}
