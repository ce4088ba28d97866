ghost use Rattle.std.specs.Prelude.{◌≡◌, ℕ, ◌+◌, ◌*◌, ◌^◌, ◌<◌, ◌≤◌, ℤ, pos, ◌≤ℤ◌};
ghost use Rattle.fixed_num.specs.Roots.{IsRoot2, IsRoot3, root2_of, root3_of};

/// The greatest whole number whose square is at most `a`.
///
/// `a` is not negative and may be any number of 128 bits.
/// Source: this project's profile.
pub fn root2(a: i128) -> i128
    requires { pos 0 ≤ℤ a }
    ensures root { IsRoot2 a result }
    ensures value { result ≡ root2_of a }
{
    let square = a.unsigned_abs();
    if square <= u64::MAX as u128 {
        root2_short(square as u64) as i128
    } else {
        root2_long(square) as i128
    }
}

/// The greatest whole number whose cube is at most `a`.
///
/// `a` is not negative and may be any number of 128 bits.
/// Source: this project's profile.
pub fn root3(a: i128) -> i128
    requires { pos 0 ≤ℤ a }
    ensures root { IsRoot3 a result }
    ensures value { result ≡ root3_of a }
{
    let cube = a.unsigned_abs();
    if cube <= u64::MAX as u128 {
        root3_short(cube as u64) as i128
    } else {
        root3_long(cube) as i128
    }
}

/// One number only is the square root of a number.
pub fn root2_is_unique()
    ensures { (a r s : ℤ) → IsRoot2 a r → IsRoot2 a s → r ≡ s }
{}

/// One number only is the cube root of a number.
pub fn root3_is_unique()
    ensures { (a r s : ℤ) → IsRoot3 a r → IsRoot3 a s → r ≡ s }
{}

// The square root of 64 bits. A step of Newton's from any number leaves one that is not below the root; the first step
// is taken from the power of two nearest to the root, where it needs no division.
fn root2_short(a: u64) -> u64
    ensures at_most { result * result ≤ a }
    ensures below_next { a < (result + 1) * (result + 1) }
    ensures small { result < 2 ^ 32 }
{
    if a == 0 {
        return 0;
    }
    let half = (a.ilog2() + 1) / 2;
    let mut root = ((1u64 << half) + (a >> half)) / 2;
    while root * root > a {
        root = (root + a / root) / 2;
    }
    root
}

// `root2_short` for 128 bits.
fn root2_long(a: u128) -> u128
    ensures at_most { result * result ≤ a }
    ensures below_next { a < (result + 1) * (result + 1) }
    ensures small { result < 2 ^ 64 }
{
    if a == 0 {
        return 0;
    }
    let half = (a.ilog2() + 1) / 2;
    let mut root = ((1u128 << half) + (a >> half)) / 2;
    while root * root > a {
        root = (root + a / root) / 2;
    }
    root
}

// The cube root of 64 bits, by Newton's steps as `root2_short`.
fn root3_short(a: u64) -> u64
    ensures at_most { result * result * result ≤ a }
    ensures below_next { a < (result + 1) * (result + 1) * (result + 1) }
    ensures small { result < 2 ^ 23 }
{
    if a == 0 {
        return 0;
    }
    let third = (a.ilog2() + 2) / 3;
    let mut root = (2 * (1u64 << third) + (a >> (2 * third))) / 3;
    while (root * root) as u128 * root as u128 > a as u128 {
        root = (2 * root + a / (root * root)) / 3;
    }
    root
}

// `root3_short` for 127 bits.
fn root3_long(a: u128) -> u128
    requires { a < 2 ^ 127 }
    ensures at_most { result * result * result ≤ a }
    ensures below_next { a < (result + 1) * (result + 1) * (result + 1) }
    ensures small { result ≤ 5_864_062_014_805 }
{
    if a == 0 {
        return 0;
    }
    let third = (a.ilog2() + 2) / 3;
    let mut root = (2 * (1u128 << third) + (a >> (2 * third))) / 3;
    while root * root * root > a {
        root = (2 * root + a / (root * root)) / 3;
    }
    root
}
