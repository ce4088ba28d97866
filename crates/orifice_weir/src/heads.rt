// The heads over the edge of an opening.
ghost use Rattle.std.specs.Prelude.{◌≡◌, ◌*◌, ◌^◌, pos, ◌-ℤ◌};
ghost use Rattle.fixed_num.specs.Ranges.{IsBetween, IsDepth, IsFall, IsHead, IsPart, IsWaterDepth, IsWithin};
ghost use Rattle.orifice_weir.specs.Heads.{directed_of, lower_of, part_of, upper_of};

use fixed_num::quo;

// How far the greater head is above an edge.
#[tactic(auto, using(fixed_num::proofs::Bounds::casts), unfolding(crate::specs::Heads::upper_of))]
pub(crate) fn upper(near: i64, far: i64, edge: i64) -> i64
    requires near { IsHead near }
    requires far { IsHead far }
    requires edge { IsHead edge }
    ensures value { result ≡ upper_of near far edge }
    ensures range { IsFall result }
{
    near.max(far) - edge
}

// How far the lesser head is above it.
#[tactic(auto, using(fixed_num::proofs::Bounds::casts), unfolding(crate::specs::Heads::lower_of))]
pub(crate) fn lower(near: i64, far: i64, edge: i64) -> i64
    requires near { IsHead near }
    requires far { IsHead far }
    requires edge { IsHead edge }
    ensures value { result ≡ lower_of near far edge }
    ensures range { IsWaterDepth result }
{
    (near.min(far) - edge).max(0)
}

// A flow in the direction of the fall.
#[tactic(auto, using(fixed_num::proofs::Bounds::casts), unfolding(crate::specs::Heads::directed_of))]
pub(crate) fn directed(near: i64, far: i64, size: i128) -> i128
    requires { IsBetween (pos 0) size (pos (10 ^ 30)) }
    ensures value { result ≡ directed_of near far size }
    ensures range { IsWithin (10 ^ 30) result }
{
    if near < far { 0 - size } else { size }
}

// A part of a height.
#[tactic(auto, using(fixed_num::proofs::Bounds::casts), unfolding(crate::specs::Heads::part_of))]
pub(crate) fn part(height: i64, part6: i64) -> i64
    requires height { IsDepth height }
    requires part6 { IsPart part6 }
    ensures value { result ≡ part_of height part6 }
    ensures range { IsDepth result }
{
    quo(height as i128 * part6 as i128, 1_000_000) as i64
}
