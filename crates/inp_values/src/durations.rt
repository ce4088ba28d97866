ghost use Rattle.std.specs.Prelude.{◌≡◌, ℤ, pos, ◌+ℤ◌, ◌*◌, ◌^◌, IfSome, IfNone};
ghost use Rattle.std.specs.Option.{option_map};
ghost use Rattle.fixed_num.specs.Ranges.{IsBetween, IsEven};
ghost use Rattle.inp_values.specs.Duration.{IsHours, IsSeconds, hours_of, seconds_of};

use crate::clocks::clock;
use fixed_num::{Unit, scaled_decimal};

const HOURS: Unit = Unit {
    num: 3_600_000,
    den: 1,
    least: 0,
    most: 1_000_000_000_000,
};

const SECONDS: Unit = Unit {
    num: 500,
    den: 1,
    least: 0,
    most: 500_000_000_000,
};

/// The ms of hours that are written as a clock or as a number, from 0 to 10^12 ms, and none for every other text (this
/// project's profile).
pub fn hours(text: &[u8]) -> Option<i64>
    ensures some { IfSome result (IsHours text.now) }
    ensures none { IfNone result ((ms : ℤ) → ¬ (IsHours text.now ms)) }
    ensures value { result ≡ hours_of text.now }
    ensures range { IfSome result (λ ms. IsBetween (pos 0) ms (pos (10 ^ 12))) }
{
    match clock(text) {
        Some(ms) => Some(ms),
        None => scaled_decimal(text, &HOURS),
    }
}

/// The ms of seconds that are written as a clock or as a number, even and from 0 to 10^12 ms, and none for every other
/// text (this project's profile). A number of seconds is rounded to units of 2 ms.
pub fn seconds(text: &[u8]) -> Option<i64>
    ensures some { IfSome result (IsSeconds text.now) }
    ensures none { IfNone result ((ms : ℤ) → ¬ (IsSeconds text.now ms)) }
    ensures value { result ≡ seconds_of text.now }
    ensures range { IfSome result (λ ms. IsBetween (pos 0) ms (pos (10 ^ 12))) }
    ensures even { IfSome result IsEven }
{
    match clock(text) {
        Some(ms) => Some(ms),
        None => doubled(scaled_decimal(text, &SECONDS)),
    }
}

/// Twice the value.
fn doubled(half: Option<i64>) -> Option<i64>
    requires { IfSome half (λ half. IsBetween (pos 0) half (pos (5 * 10 ^ 11))) }
    ensures value { result ≡ option_map (λ half. half +ℤ half) half }
    ensures range { IfSome result (λ ms. IsBetween (pos 0) ms (pos (10 ^ 12))) }
{
    let Some(half) = half else {
        return None;
    };
    Some(half + half)
}
