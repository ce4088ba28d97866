// Points of lines.
ghost use Rattle.std.specs.Prelude.{◌≡◌, ℕ, ◌*◌, ◌^◌, ◌<◌, ◌≤◌, ℤ, pos, ◌≤ℤ◌, ◌<ℤ◌};
ghost use Rattle.fixed_num.specs.Interpolation.{lerp_of};
ghost use Rattle.fixed_num.specs.Ranges.{IsBetween};
ghost use Rattle.fixed_num.specs.Rounding.{rounded as rounded_of};

use crate::quotient::nearest;
use fixed_num::lerp;

// Up to this rise a line needs no numbers of 128 bits.
const SMALL: u64 = 2_147_483_647;

/// The value after `part` of a `run` of the straight line from `y0` to `y1`, rounded once to the nearest.
///
/// `run` is above 0 and below 2^31, and `part` is at most `run`. `inverse` is the [`inverse`](crate::inverse) of
/// `run`: any other number leaves the result as it is, and costs a division. Source: this project's profile.
pub fn line_at(y0: i64, y1: i64, part: u64, run: u64, inverse: u64) -> i64
    requires part { part ≤ run }
    requires run { 0 < run }
    requires small { run < 2 ^ 31 }
    ensures { result ≡ lerp_of (pos 0) y0 (pos run) y1 (pos part) }
{
    let rise = y1.abs_diff(y0);
    if rise > SMALL {
        return steep_line_at(y0, y1, part, run);
    }
    let share = share(rise, part, run, inverse);
    if y0 < y1 { y0 + share } else { y0 - share }
}

// The same by numbers of 128 bits.
#[cold]
#[inline(never)]
fn steep_line_at(y0: i64, y1: i64, part: u64, run: u64) -> i64
    requires part { part ≤ run }
    requires run { 0 < run }
    requires small { run < 2 ^ 31 }
    ensures { result ≡ lerp_of (pos 0) y0 (pos run) y1 (pos part) }
{
    lerp(0, y0, run as i64, y1, part as i64)
}

// What `part` of `run` is of `rise`, rounded to the nearest.
fn share(rise: u64, part: u64, run: u64, inverse: u64) -> i64
    requires rise { rise < 2 ^ 31 }
    requires part { part ≤ run }
    requires run { 0 < run }
    requires small { run < 2 ^ 31 }
    ensures value { result ≡ pos (rounded_of (rise * part) run) }
    ensures range { IsBetween (pos 0) result (pos rise) }
{
    nearest(rise * part, run, inverse) as i64
}
