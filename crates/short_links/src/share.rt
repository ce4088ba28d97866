// What a link without length gives in a trial.
ghost use Rattle.std.specs.Prelude.{◌≡◌, ◌*◌, ◌^◌, pos};
ghost use Rattle.fixed_num.specs.Ranges.{IsFlow, IsHead, IsWithin};
ghost use Rattle.phase_law.specs.Ranges.{ShareInRange};
ghost use Rattle.short_links.specs.ShortShare.{bounded_of, forward_of, from_wet_of, short_flow_of, short_share_of};

use fixed_num::{cut, relaxed};
use phase_law::Share;

/// What bars the flow of a link without length.
///
/// `flap` is true where the link has a flap gate, or the outfall at its second end a gate; `invert1` and
/// `invert2` are the
/// inverts of the nodes at its ends, in µm.
#[derive(Clone, Copy, Debug, PartialEq, Eq)]
pub struct ShortLink {
    pub flap: bool,
    pub invert1: i64,
    pub invert2: i64,
}

/// The share of a link without length in a trial.
///
/// `near` and `far` are the heads of the nodes at its first and its second end (µm, ±2·10^10), `last` is its
/// flow in the last
/// trial (cm³/s, ±10^12), `first` is true in the first trial of a step, and `driven` is the flow that drives it (cm³/s,
/// ±10^30). Source: Reference Manual volume II, chapter 3; the order of the steps is this project's profile.
#[tactic(auto, using(fixed_num::proofs::Bounds::casts), unfolding(crate::specs::ShortShare::short_share_of))]
pub fn short_share(
    link: &ShortLink,
    first: bool,
    near: i64,
    far: i64,
    last: i64,
    driven: i128,
) -> Share
    requires near { IsHead near }
    requires far { IsHead far }
    requires last { IsFlow last }
    requires driven { IsWithin (10 ^ 30) driven }
    ensures value { result ≡ short_share_of link.now first near far last driven }
    ensures range { ShareInRange result }
{
    Share {
        q: short_flow(link, first, near, far, last, driven),
        area1: 0,
        area2: 0,
        time: 3_600_000,
    }
}

// Its flow.
#[tactic(auto, using(fixed_num::proofs::Bounds::casts), unfolding(crate::specs::ShortShare::short_flow_of))]
fn short_flow(link: &ShortLink, first: bool, near: i64, far: i64, last: i64, driven: i128) -> i64
    requires last { IsFlow last }
    requires driven { IsWithin (10 ^ 30) driven }
    ensures value { result ≡ short_flow_of link.now first near far last driven }
    ensures range { IsFlow result }
{
    let relaxed = relaxed(first, last, driven);
    from_wet(link, near, far, bounded(forward(link.flap, relaxed)))
}

// A flow that a gate does not let run back.
#[tactic(auto, using(fixed_num::proofs::Bounds::casts), unfolding(crate::specs::ShortShare::forward_of))]
fn forward(flap: bool, q: i128) -> i128
    ensures value { result ≡ forward_of flap q }
{
    if flap && q < 0 {
        return 0;
    }
    q
}

// A flow of at most 10^12 either way.
#[tactic(auto, using(fixed_num::proofs::Bounds::casts), unfolding(crate::specs::ShortShare::bounded_of))]
fn bounded(q: i128) -> i64
    ensures value { result ≡ bounded_of q }
    ensures range { IsFlow result }
{
    cut(q, -1_000_000_000_000, 1_000_000_000_000) as i64
}

// A flow that does not run out of a node whose head is at or below its invert.
#[tactic(auto, using(fixed_num::proofs::Bounds::casts), unfolding(crate::specs::ShortShare::from_wet_of))]
fn from_wet(link: &ShortLink, near: i64, far: i64, q: i64) -> i64
    requires { IsFlow q }
    ensures value { result ≡ from_wet_of link.now near far q }
    ensures range { IsFlow result }
{
    if (q > 0 && near <= link.invert1) || (q < 0 && far <= link.invert2) {
        return 0;
    }
    q
}
