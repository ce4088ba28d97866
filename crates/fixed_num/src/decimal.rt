ghost use Rattle.std.specs.Prelude.{◌≡◌, ℕ, ◌*◌, ◌^◌, ◌<◌, ◌≤◌, Bool, List, Option, ℤ, pos, IfSome, IfNone};
ghost use Rattle.fixed_num.specs.Decimal.{IsStored, in_range, scaled_of, stored_value, value_in};
ghost use Rattle.fixed_num.specs.Number.{IsNumber, IsSmall, signed};
ghost use Rattle.fixed_num.specs.Rounding.{rounded as rounded_of};
ghost use Rattle.fixed_num.specs.declared.unit.Unit.{Unit as Scale};
ghost use Rattle.fixed_num.specs.Units.{IsUnit};

use crate::number::{Number, read_number};
use crate::rounding::{minus, rounded};
use crate::unit::Unit;

#[cfg(test)]
mod tests;

/// The value of a text in a unit: the number that the text writes times `num / den`, rounded once to the
/// nearest, ties away from zero.
///
/// `None` exactly where the text is no number, or where its value is below `least` or above `most`.
/// Source: this project's profile, numbers in texts.
pub fn scaled_decimal(text: &[u8], unit: &Unit) -> Option<i64>
    requires { IsUnit unit.now }
    ensures some { IfSome result (λ v. IsStored unit.now text.now v) }
    ensures none { IfNone result ((v : ℤ) → ¬ (IsStored unit.now text.now v)) }
    ensures value { result ≡ scaled_of unit.now text.now }
{
    let Some(number) = read_number(text) else {
        return None;
    };
    in_range(unit, stored(unit, number))
}

/// A text is one number only.
pub fn number_is_unique()
    ensures { (text : List ℕ) (b c : Bool) (m n : ℕ) (e f : ℤ) → IsNumber text b m e → IsNumber text c n f
        → (b ≡ c) × (m ≡ n) × (e ≡ f) }
{}

/// A text has one value only in a unit.
pub fn stored_is_unique()
    ensures { (unit : Scale) (text : List ℕ) (v w : ℤ) → IsStored unit text v → IsStored unit text w → v ≡ w }
{}

// The value of a number in a unit, with its sign.
fn stored(unit: &Unit, number: Number) -> i128
    requires unit { IsUnit unit.now }
    requires small { IsSmall number }
    ensures { result ≡ stored_value unit.now number.negative number.digits number.power }
{
    let amount = number.digits as u128 * unit.num as u128;
    let power = number.power.unsigned_abs();
    if number.power < 0 {
        signed(number.negative, lowered(amount, power, unit.den))
    } else {
        signed(number.negative, raised(amount, power, unit.den))
    }
}

// `amount * 10 ^ power / den`, rounded.
fn raised(amount: u128, power: u32, den: u64) -> u128
    requires amount { amount ≤ 10 ^ 29 }
    requires power { power ≤ 9 }
    requires den { 0 < den }
    ensures value { result ≡ rounded_of (amount * 10 ^ power) den }
    ensures small { result ≤ 10 ^ 38 }
{
    rounded(amount * 10u128.pow(power), den as u128)
}

// `amount / (den * 10 ^ power)`, rounded.
fn lowered(amount: u128, power: u32, den: u64) -> u128
    requires amount { amount ≤ 10 ^ 29 }
    requires power { power ≤ 27 }
    requires den { 0 < den }
    requires den_small { den ≤ 10 ^ 8 }
    ensures value { result ≡ rounded_of amount (den * 10 ^ power) }
    ensures small { result ≤ 10 ^ 38 }
{
    rounded(amount, den as u128 * 10u128.pow(power))
}

// The number of this size with its sign.
fn signed(negative: bool, size: u128) -> i128
    requires { size ≤ 10 ^ 38 }
    ensures { result ≡ signed negative (pos size) }
{
    if negative { minus(size) } else { size as i128 }
}

// The value, if it lies in the unit's range.
fn in_range(unit: &Unit, value: i128) -> Option<i64>
    ensures { result ≡ in_range unit.now value }
{
    if value < unit.least as i128 {
        return None;
    }
    if value > unit.most as i128 {
        return None;
    }
    Some(value as i64)
}
