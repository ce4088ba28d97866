// Powers of a depth in halves.
ghost use Rattle.std.specs.Prelude.{◌≡◌, ◌≤◌, ◌^◌, pos, ◌≤ℤ◌};
ghost use Rattle.fixed_num.specs.Ranges.{IsBetween};
ghost use Rattle.storage_shapes.specs.ShapeArea.{power_of, product_of, root6_of, whole_power_of};

use fixed_num::{quo, root2};

// The product of two numbers of millionths.
#[tactic(auto, using(fixed_num::proofs::Bounds::casts), unfolding(crate::specs::ShapeArea::product_of))]
fn product(p: i64, x: i64) -> i64
    requires p { IsBetween (pos 0) p (pos 100_000_000_000_000) }
    requires x { IsBetween (pos 0) x (pos 10_000_000_000) }
    ensures value { result ≡ product_of p x }
    ensures range { IsBetween (pos 0) result (pos 1_000_000_000_000_000_000) }
    // The first two steps of a power stay smaller.
    ensures one { p ≤ℤ pos 1_000_000 → result ≤ℤ pos 10_000_000_000 }
    ensures two { p ≤ℤ pos 10_000_000_000 → result ≤ℤ pos 100_000_000_000_000 }
{
    quo(p as i128 * x as i128, 1_000_000) as i64
}

// A depth to a whole power.
fn whole_power(x: i64, wholes: u32) -> i64
    requires x { IsBetween (pos 0) x (pos 10_000_000_000) }
    requires few { wholes ≤ 3 }
    ensures value { result ≡ whole_power_of x wholes }
    ensures range { IsBetween (pos 0) result (pos 1_000_000_000_000_000_000) }
    ensures low { wholes ≤ 2 → result ≤ℤ pos 100_000_000_000_000 }
{
    if wholes == 0 {
        return 1_000_000;
    }
    let one = product(1_000_000, x);
    if wholes == 1 {
        return one;
    }
    let two = product(one, x);
    if wholes == 2 {
        return two;
    }
    product(two, x)
}

// The root of a depth.
#[tactic(auto, using(fixed_num::proofs::Bounds::casts), unfolding(crate::specs::ShapeArea::root6_of))]
fn root6(x: i64) -> i64
    requires { IsBetween (pos 0) x (pos 10_000_000_000) }
    ensures value { result ≡ root6_of x }
    ensures range { IsBetween (pos 0) result (pos 100_000_000) }
{
    root2(x as i128 * 1_000_000) as i64
}

// A depth to a power in halves.
pub(crate) fn power(x: i64, halves: u32) -> i64
    requires x { IsBetween (pos 0) x (pos 10_000_000_000) }
    requires few { halves ≤ 6 }
    ensures value { result ≡ power_of x halves }
    ensures range { IsBetween (pos 0) result (pos 1_000_000_000_000_000_000) }
{
    let whole = whole_power(x, halves / 2);
    if halves % 2 == 1 {
        return product(whole, root6(x));
    }
    whole
}
