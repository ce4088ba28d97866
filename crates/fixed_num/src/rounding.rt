ghost use Rattle.std.specs.Prelude.{◌≡◌, ℕ, ◌+◌, ◌*◌, ◌^◌, ◌<◌, ◌≤◌, ℤ, pos, neg_ℤ};
ghost use Rattle.std.specs.Prelude.{◌<ℤ◌, IsTrue, IsFalse, if◌then◌else◌};
ghost use Rattle.fixed_num.specs.Rounding.{IsNearest, quo_of, rounded as rounded_of};

/// The whole number nearest to `a / b`, ties away from zero.
///
/// `b` is positive; both may be any numbers of 128 bits.
/// Source: this project's profile.
pub fn quo(a: i128, b: i128) -> i128
    requires { pos 0 <ℤ b }
    ensures nearest { IsNearest a b result }
    ensures value { result ≡ quo_of a b }
{
    let size = rounded(a.unsigned_abs(), b.unsigned_abs());
    if a < 0 { minus(size) } else { size as i128 }
}

/// One number only is nearest to `a / b` with ties away from zero.
pub fn nearest_is_unique()
    ensures { (a b p q : ℤ) → pos 0 <ℤ b → IsNearest a b p → IsNearest a b q → p ≡ q }
{}

// `n / k` to the nearest, a half upwards.
pub(crate) fn rounded(n: u128, k: u128) -> u128
    requires { 0 < k }
    ensures { result ≡ rounded_of n k }
{
    if n <= u64::MAX as u128 && k <= u64::MAX as u128 {
        return rounded_short(n as u64, k as u64) as u128;
    }
    let whole = n / k;
    let remainder = n % k;
    if remainder >= k - remainder {
        whole + 1
    } else {
        whole
    }
}

// `rounded` for numbers of 64 bits, whose division is much faster.
fn rounded_short(n: u64, k: u64) -> u64
    requires { 0 < k }
    ensures { result ≡ rounded_of n k }
{
    let quotient = n / k;
    let rest = n % k;
    if rest >= k - rest {
        quotient + 1
    } else {
        quotient
    }
}

// The number of magnitude `size` below zero.
pub(crate) fn minus(size: u128) -> i128
    requires { size ≤ 2 ^ 127 }
    ensures { result ≡ neg_ℤ (pos size) }
{
    if size == 0 {
        0
    } else {
        -((size - 1) as i128) - 1
    }
}
