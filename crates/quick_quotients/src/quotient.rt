// Quotients by a kept inverse.
ghost use Rattle.std.specs.Prelude.{◌≡◌, ℕ, ◌-◌, ◌/◌, ◌^◌, ◌<◌, pos, ◌≤ℤ◌, ◌<ℤ◌};
ghost use Rattle.fixed_num.specs.Ranges.{IsBetween};
ghost use Rattle.fixed_num.specs.Rounding.{quo_of, rounded as rounded_of};

/// The inverse of a divisor: the greatest number of 64 bits over it, rounded down.
///
/// Source: this project's profile.
pub fn inverse(k: u64) -> u64
    requires { 0 < k }
    ensures { result ≡ (2 ^ 64 - 1) / k }
{
    u64::MAX / k
}

/// `n / k` rounded to the nearest, a half upwards.
///
/// Both are below 2^63. `inverse` is the [`inverse`] of `k`: any other number leaves the result as it is, and costs a
/// division. Source: this project's profile.
pub fn nearest(n: u64, k: u64, inverse: u64) -> u64
    requires n { n < 2 ^ 63 }
    requires divisor { 0 < k }
    requires small { k < 2 ^ 63 }
    ensures { result ≡ rounded_of n k }
{
    let shifted = n + k / 2;
    let (_, guess) = shifted.carrying_mul(inverse, 0);
    quotient(shifted, k, guess)
}

// `m / k`: mostly `guess` or the next number.
fn quotient(m: u64, k: u64, guess: u64) -> u64
    requires { 0 < k }
    ensures { result ≡ m / k }
{
    let (product, over) = guess.carrying_mul(k, 0);
    if over > 0 {
        return m / k;
    }
    if product > m {
        return m / k;
    }
    let rest = m - product;
    if rest < k {
        return guess;
    }
    if rest - k < k {
        return guess + 1;
    }
    m / k
}

/// The whole number nearest to `a / b`, ties away from zero, of numbers of 0 to 2^62 and a positive divisor.
///
/// Source: this project's profile.
pub fn quick_quo(a: i64, b: i64) -> i64
    requires a { IsBetween (pos 0) a (pos (2 ^ 62)) }
    requires b { IsBetween (pos 1) b (pos (2 ^ 62)) }
    ensures value { result ≡ quo_of a b }
    ensures range { IsBetween (pos 0) result a }
{
    let n = a.unsigned_abs();
    let k = b.unsigned_abs();
    ((n + k / 2) / k) as i64
}
