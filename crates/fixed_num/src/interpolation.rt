ghost use Rattle.std.specs.Prelude.{◌≡◌, ℕ, ◌-◌, ◌^◌, ◌<◌, ◌≤◌, ℤ, pos, ◌*ℤ◌, ◌≤ℤ◌, ◌<ℤ◌};
ghost use Rattle.std.specs.Int.{int_min, int_max};
ghost use Rattle.fixed_num.specs.Interpolation.{lerp_of};
ghost use Rattle.fixed_num.specs.Ranges.{IsBetween, IsWithin};
ghost use Rattle.fixed_num.specs.Rounding.{quo_of};

use crate::rounding::{minus, rounded};

/// The value at `x` of the straight line through `(x0, y0)` and `(x1, y1)`, rounded once to the nearest.
///
/// `x` lies in `x0` to `x1`, which differ; the result lies between `y0` and `y1`.
/// Source: this project's profile.
#[tactic(auto, using(crate::proofs::Bounds::casts))]
pub fn lerp(x0: i64, y0: i64, x1: i64, y1: i64, x: i64) -> i64
    requires from { x0 ≤ℤ x }
    requires to { x ≤ℤ x1 }
    requires apart { x0 <ℤ x1 }
    ensures value { result ≡ lerp_of x0 y0 x1 y1 x }
    ensures between { IsBetween (int_min y0 y1) result (int_max y0 y1) }
{
    let rise = y1 as i128 - y0 as i128;
    let part = x as i128 - x0 as i128;
    let run = x1 as i128 - x0 as i128;
    (y0 as i128 + share(rise, part, run)) as i64
}

// What `part` of `run` is of `rise`, rounded to the nearest. The product may need all of 128 bits, and so is formed
// without its sign.
#[tactic(auto, using(crate::proofs::Bounds::casts))]
fn share(rise: i128, part: i128, run: i128) -> i128
    requires rise { IsWithin (2 ^ 64 - 1) rise }
    requires part { IsBetween (pos 0) part run }
    requires apart { pos 0 <ℤ run }
    requires run { IsWithin (2 ^ 64 - 1) run }
    ensures value { result ≡ quo_of (rise *ℤ part) run }
    ensures between { IsBetween (int_min (pos 0) rise) result (int_max (pos 0) rise) }
{
    let size = rounded(
        rise.unsigned_abs() * part.unsigned_abs(),
        run.unsigned_abs(),
    );
    if rise < 0 { minus(size) } else { size as i128 }
}
