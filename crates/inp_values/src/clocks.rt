ghost use Rattle.std.specs.Prelude.{◌≡◌, ℤ, pos, ◌<◌, ◌^◌, IfSome, IfNone, Some};
ghost use Rattle.fixed_num.specs.Ranges.{IsBetween, IsEven};
ghost use Rattle.inp_values.specs.Clock.{IsClock, IsTimeOfDay, below_a_day, clock_end_of, clock_of};
ghost use Rattle.inp_values.specs.Clock.{ms_in, seconds_in, sixtieths_of, time_of_day_of};

use crate::wholes::{field, split_digits};

/// The ms that a clock `h:mm` or `h:mm:ss` writes, and none for every other text: one to five digits of hours, two
/// digits each of minutes and seconds below 60 (this project's profile).
pub fn clock(text: &[u8]) -> Option<i64>
    ensures some { IfSome result (IsClock text.now) }
    ensures none { IfNone result ((ms : ℤ) → ¬ (IsClock text.now ms)) }
    ensures value { result ≡ clock_of text.now }
    ensures range { IfSome result (λ ms. IsBetween (pos 0) ms (pos 359_999_999_000)) }
    ensures even { IfSome result IsEven }
{
    let (front, rest) = split_digits(text);
    ms_of(field(front, 1, 5), clock_end(rest))
}

/// The same of a clock whose hours are below 24, and none for every other text (User's Manual, section [OPTIONS],
/// START_TIME).
pub fn time_of_day(text: &[u8]) -> Option<i64>
    ensures some { IfSome result (IsTimeOfDay text.now) }
    ensures none { IfNone result ((ms : ℤ) → ¬ (IsTimeOfDay text.now ms)) }
    ensures value { result ≡ time_of_day_of text.now }
    ensures range { IfSome result (λ ms. IsBetween (pos 0) ms (pos 86_399_999)) }
    ensures even { IfSome result IsEven }
{
    below_a_day(clock(text))
}

/// Hours and seconds as ms.
fn ms_of(hours: Option<u32>, seconds: Option<u32>) -> Option<i64>
    requires hours { IfSome hours (λ n. n < 10 ^ 5) }
    requires seconds { IfSome seconds (λ n. n < 3600) }
    ensures value { result ≡ ms_in hours seconds }
    ensures range { IfSome result (λ ms. IsBetween (pos 0) ms (pos 359_999_999_000)) }
{
    let Some(hours) = hours else {
        return None;
    };
    let Some(seconds) = seconds else {
        return None;
    };
    Some(((hours as u64 * 3600 + seconds as u64) * 1000) as i64)
}

/// The time, where it is below 24 hours.
fn below_a_day(ms: Option<i64>) -> Option<i64>
    requires { IfSome ms (λ ms. IsBetween (pos 0) ms (pos 359_999_999_000)) }
    ensures value { result ≡ below_a_day ms }
    ensures range { IfSome result (λ ms. IsBetween (pos 0) ms (pos 86_399_999)) }
{
    let Some(ms) = ms else {
        return None;
    };
    if ms < 86_400_000 { Some(ms) } else { None }
}

/// The seconds that the end of a clock writes, behind its hours.
fn clock_end(text: &[u8]) -> Option<u32>
    ensures value { result ≡ clock_end_of text.now }
    ensures range { IfSome result (λ seconds. seconds < 3600) }
{
    match text {
        [b':', a, b] => whole_seconds(sixtieths(*a, *b), Some(0)),
        [b':', a, b, b':', c, d] => whole_seconds(sixtieths(*a, *b), sixtieths(*c, *d)),
        _ => None,
    }
}

/// The number below 60 that two digits write.
fn sixtieths(a: u8, b: u8) -> Option<u32>
    ensures value { result ≡ sixtieths_of a b }
    ensures range { IfSome result (λ n. n < 60) }
{
    if !a.is_ascii_digit() {
        return None;
    }
    if !b.is_ascii_digit() {
        return None;
    }
    let n = (a - b'0') as u32 * 10 + (b - b'0') as u32;
    if n < 60 { Some(n) } else { None }
}

/// Minutes and seconds as seconds.
fn whole_seconds(minutes: Option<u32>, seconds: Option<u32>) -> Option<u32>
    requires minutes { IfSome minutes (λ n. n < 60) }
    requires seconds { IfSome seconds (λ n. n < 60) }
    ensures value { result ≡ seconds_in minutes seconds }
    ensures range { IfSome result (λ n. n < 3600) }
{
    let Some(minutes) = minutes else {
        return None;
    };
    let Some(seconds) = seconds else {
        return None;
    };
    Some(minutes * 60 + seconds)
}
