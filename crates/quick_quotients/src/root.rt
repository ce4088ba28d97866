// Square roots without a division, and comparisons with them.
ghost use Rattle.std.specs.Prelude.{◌≡◌, ◌^◌, ◌<◌, pos, ◌≤ℤ◌, int_le, IsTrue};
ghost use Rattle.fixed_num.specs.Ranges.{IsBetween};
ghost use Rattle.fixed_num.specs.Roots.{root2_of};

use fixed_num::root2;

// The square of each greater number is above all numbers of 126 bits.
const WIDE: i128 = 9_223_372_036_854_775_807;

/// Whether a number is at least the whole part of the square root of `a`.
///
/// `a` lies in 0 to 2^126. Source: this project's profile.
pub fn reaches_root(v: i128, a: i128) -> bool
    requires { IsBetween (pos 0) a (pos (2 ^ 126)) }
    ensures { result ≡ int_le (root2_of a) v }
{
    if v < 0 {
        return false;
    }
    if v > WIDE {
        return true;
    }
    let next = v + 1;
    if a < next * next {
        return true;
    }
    false
}

/// The greatest whole number whose square is at most `a`, mostly without a division.
///
/// `a` is not negative and may be any number of 128 bits. Source: this project's profile.
pub fn quick_root2(a: i128) -> i128
    requires { pos 0 ≤ℤ a }
    ensures { result ≡ root2_of a }
{
    if a >= SHORT {
        return any_root2(a);
    }
    let short = a as u64;
    let guess = guess_root2(short);
    if is_root2(short, guess) {
        return guess as i128;
    }
    if is_root2(short, guess + 1) {
        return (guess + 1) as i128;
    }
    any_root2(a)
}

// The same by halving.
#[cold]
#[inline(never)]
fn any_root2(a: i128) -> i128
    requires { pos 0 ≤ℤ a }
    ensures { result ≡ root2_of a }
{
    root2(a)
}

// The roots of all lower numbers have 31 bits.
const SHORT: i128 = 4_611_686_018_427_387_904;

// Whether a number is the root of another.
fn is_root2(a: u64, root: u64) -> bool
    requires { root < 2 ^ 32 }
    ensures { IsTrue result → pos root ≡ root2_of (pos a) }
{
    if a < root * root {
        return false;
    }
    (a as u128) < (root as u128 + 1) * (root as u128 + 1)
}

// A number near the root, and mostly the root or one less: three of Newton's steps towards the inverse of the root of
// `a` as a fraction of 2^64, with 62 places, from a straight line.
fn guess_root2(a: u64) -> u64
    ensures { result < 2 ^ 31 }
{
    if a == 0 {
        return 0;
    }
    let half = (63 - a.ilog2()) / 2;
    let part = a << (2 * half);
    let start = 9_832_114_591_287_191_552u64.wrapping_sub(high(part, 5_607_810_198_407_703_552));
    let inverse = step(part, step(part, step(part, start)));
    (high(part, inverse) >> (30 + half)).min(2_147_483_647)
}

// One of Newton's steps towards the inverse of the root of a part.
fn step(part: u64, inverse: u64) -> u64 {
    let square = high(inverse, inverse);
    let rest = 3_458_764_513_820_540_928u64.wrapping_sub(high(part, square));
    high(inverse, rest).wrapping_mul(8)
}

// The upper half of a product.
pub(crate) fn high(a: u64, b: u64) -> u64 {
    let (_, upper) = a.carrying_mul(b, 0);
    upper
}
