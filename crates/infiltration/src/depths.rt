// The depth of a rate over a time.
ghost use Rattle.std.specs.Prelude.{◌≡◌, ◌^◌, ◌≤ℤ◌, ◌*ℤ◌, pos};
ghost use Rattle.fixed_num.specs.Ranges.{IsBetween, IsRate};
ghost use Rattle.infiltration.specs.Depths.{IsRunoffStep, depth_of};

use fixed_num::quo;

/// The depth of a rate over a time.
///
/// `rate` is 0 to 10^10 nm/h, `ms` 1,000 to 3,600,000 ms; the depth is in nm.
/// Source: this project's profile.
pub fn depth_over(rate: i64, ms: i64) -> i64
    requires rate { IsRate rate }
    requires time { IsRunoffStep ms }
    ensures value { result ≡ depth_of rate ms }
    ensures range { IsBetween (pos 0) result (pos (10 ^ 10)) }
    // A run of 3,660 days adds up to less than 10^15.
    ensures slow { result ≤ℤ (pos 2_778 *ℤ ms) }
{
    quo(rate as i128 * ms as i128, 3_600_000) as i64
}
