// How much less flows over a weir that is submerged.
ghost use Rattle.std.specs.Prelude.{◌≡◌, ◌^◌, pos, ◌≤ℤ◌};
ghost use Rattle.fixed_num.specs.Ranges.{IsBetween};
ghost use Rattle.orifice_weir.specs.Submergence.{cube_root6_of, deficit_of, free_part_of, head_ratio_of, root6_of};
ghost use Rattle.orifice_weir.specs.Submergence.{root9_of, submerged_of, three_halves_of};

use fixed_num::{quo, root2};

// The lower head over the upper one.
#[tactic(auto, using(fixed_num::proofs::Bounds::casts), unfolding(crate::specs::Submergence::head_ratio_of))]
fn head_ratio(low: i64, high: i64) -> i64
    requires low { IsBetween (pos 0) low high }
    requires high { IsBetween (pos 1) high (pos 1_000_000_000) }
    ensures value { result ≡ head_ratio_of low high }
    ensures range { IsBetween (pos 0) result (pos 1_000_000) }
{
    quo(low as i128 * 1_000_000, high as i128) as i64
}

// The root of a number of millionths.
#[tactic(auto, using(fixed_num::proofs::Bounds::casts), unfolding(crate::specs::Submergence::root6_of))]
pub(crate) fn root6(x: i64) -> i64
    requires { IsBetween (pos 0) x (pos 1_000_000_000) }
    ensures value { result ≡ root6_of x }
    ensures range { IsBetween (pos 0) result (pos 31_622_776) }
    ensures small { x ≤ℤ pos 1_000_000 → result ≤ℤ pos 1_000_000 }
{
    root2(x as i128 * 1_000_000) as i64
}

// The product of a ratio and its root.
#[tactic(auto, using(fixed_num::proofs::Bounds::casts), unfolding(crate::specs::Submergence::three_halves_of))]
fn three_halves(ratio: i64, root: i64) -> i64
    requires ratio { IsBetween (pos 0) ratio (pos 1_000_000) }
    requires root { IsBetween (pos 0) root (pos 1_000_000) }
    ensures value { result ≡ three_halves_of ratio root }
    ensures range { IsBetween (pos 0) result (pos 1_000_000) }
{
    quo(ratio as i128 * root as i128, 1_000_000) as i64
}

// 1 less the ratio to the power of three halves.
#[tactic(auto, using(fixed_num::proofs::Bounds::casts), unfolding(crate::specs::Submergence::deficit_of))]
fn deficit(ratio: i64) -> i64
    requires { IsBetween (pos 0) ratio (pos 1_000_000) }
    ensures value { result ≡ deficit_of ratio }
    ensures range { IsBetween (pos 0) result (pos 1_000_000) }
{
    1_000_000 - three_halves(ratio, root6(ratio))
}

// The root of a number of 10^-9.
#[tactic(auto, using(fixed_num::proofs::Bounds::casts), unfolding(crate::specs::Submergence::root9_of))]
fn root9(x: i64) -> i64
    requires { IsBetween (pos 0) x (pos 1_000_000_000) }
    ensures value { result ≡ root9_of x }
    ensures range { IsBetween (pos 0) result (pos 1_000_000_000) }
{
    root2(x as i128 * 1_000_000_000) as i64
}

// The root of the cube of a number of millionths.
#[tactic(auto, using(fixed_num::proofs::Bounds::casts), unfolding(crate::specs::Submergence::cube_root6_of))]
fn cube_root6(x: i64) -> i64
    requires { IsBetween (pos 0) x (pos 1_000_000) }
    ensures value { result ≡ cube_root6_of x }
    ensures range { IsBetween (pos 0) result (pos 1_000_000_000) }
{
    root2(x as i128 * x as i128 * x as i128) as i64
}

// The part that still flows.
#[tactic(auto, using(fixed_num::proofs::Bounds::casts), unfolding(crate::specs::Submergence::free_part_of))]
fn free_part(low: i64, high: i64) -> i64
    requires low { IsBetween (pos 0) low high }
    requires high { IsBetween (pos 1) high (pos 1_000_000_000) }
    ensures value { result ≡ free_part_of low high }
    ensures range { IsBetween (pos 0) result (pos 1_000_000_000) }
{
    root9(root9(cube_root6(deficit(head_ratio(low, high)))))
}

// The flow over a weir, less where it is submerged.
#[tactic(auto, using(fixed_num::proofs::Bounds::casts), unfolding(crate::specs::Submergence::submerged_of))]
pub(crate) fn submerged(low: i64, high: i64, flow: i128) -> i128
    requires low { IsBetween (pos 0) low high }
    requires high { IsBetween (pos 1) high (pos 1_000_000_000) }
    requires flow { IsBetween (pos 0) flow (pos (10 ^ 24)) }
    ensures value { result ≡ submerged_of low high flow }
    ensures range { IsBetween (pos 0) result (pos (10 ^ 30)) }
{
    if low > 0 {
        return quo(flow * free_part(low, high) as i128, 1_000_000_000);
    }
    flow
}
