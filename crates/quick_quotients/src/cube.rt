// Cube roots without a division.
ghost use Rattle.std.specs.Prelude.{◌≡◌, ◌^◌, ◌<◌, pos, ◌≤ℤ◌, IsTrue};
ghost use Rattle.fixed_num.specs.Roots.{root3_of};

use crate::root::high;
use fixed_num::root3;

/// The greatest whole number whose cube is at most `a`, mostly without a division.
///
/// `a` is not negative and may be any number of 128 bits. Source: this project's profile.
pub fn quick_root3(a: i128) -> i128
    requires { pos 0 ≤ℤ a }
    ensures { result ≡ root3_of a }
{
    if a >= LONG {
        return any_root3(a);
    }
    let whole = a as u128;
    let guess = guess_root3(whole);
    if is_root3(whole, guess) {
        return guess as i128;
    }
    if is_root3(whole, guess + 1) {
        return (guess + 1) as i128;
    }
    any_root3(a)
}

// The same by halving.
#[cold]
#[inline(never)]
fn any_root3(a: i128) -> i128
    requires { pos 0 ≤ℤ a }
    ensures { result ≡ root3_of a }
{
    root3(a)
}

// The cube roots of all lower numbers have 28 bits.
const LONG: i128 = 19_342_813_113_834_066_795_298_816;

// Whether a number is the cube root of another.
fn is_root3(a: u128, root: u64) -> bool
    requires { root < 2 ^ 28 }
    ensures { IsTrue result → pos root ≡ root3_of (pos a) }
{
    let next = root + 1;
    if a < root as u128 * root as u128 * root as u128 {
        return false;
    }
    a < next as u128 * next as u128 * next as u128
}

// A number near the cube root, and mostly the root or one less: Newton's steps towards the inverse of the cube root of
// `a` as a fraction of the next power of two, with 62 places, from a straight line. Two of them serve up to 62 bits.
fn guess_root3(a: u128) -> u64
    ensures { result < 268_435_455 }
{
    if a == 0 {
        return 0;
    }
    let bits = a.ilog2() + 1;
    let part = ((a << (128 - bits)) / 18_446_744_073_709_551_616) as u64;
    let start = 6_908_305_655_604_227_072u64.wrapping_sub(high(part, 2_351_959_869_397_867_972));
    let near = step(part, step(part, start));
    let inverse = if bits > 62 { step(part, near) } else { near };
    let root = high(part, high(inverse, inverse));
    (high(root, power(bits % 3)) >> (58 - bits / 3)).min(268_435_454)
}

// The cube root of that power of two, with 62 places.
fn power(bits: u32) -> u64 {
    match bits {
        0 => 4_611_686_018_427_387_904,
        1 => 5_810_360_290_122_551_296,
        _ => 7_320_595_236_998_661_120,
    }
}

// One of Newton's steps towards the inverse of the cube root of a part.
fn step(part: u64, inverse: u64) -> u64 {
    let square = high(part, high(inverse, inverse));
    let rest = 1_152_921_504_606_846_976u64.wrapping_sub(high(square, inverse));
    (high(inverse, rest) / 3).wrapping_mul(64)
}
