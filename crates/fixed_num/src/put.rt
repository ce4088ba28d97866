ghost use Rattle.std.specs.Prelude.{◌≡◌, ℕ, ◌+◌, ◌*◌, ◌/◌, ◌%◌, ◌^◌, ◌<◌, ◌≤◌, ◌++◌};
ghost use Rattle.std.specs.Prelude.{length, take, drop, decimal, ℤ, pos, ◌*ℤ◌};
ghost use Rattle.fixed_num.specs.Decimal.{decimal_text, last_digits, placed};
ghost use Rattle.fixed_num.specs.Ranges.{IsWithin};
ghost use Rattle.fixed_num.specs.Rounding.{quo_of};
ghost use Rattle.fixed_num.specs.Units.{IsUnit};

use crate::rounding::quo;
use crate::unit::Unit;
use itoa::Buffer;

/// Writes a stored value in its user's unit, rounded once to so many decimal places, at the front of `to`,
/// and returns how many bytes it wrote.
///
/// A number below 0 begins with `-`. At least one digit stands before the point, and with no places there is
/// no point. `places` is at most 6, and `value` within 10^20 on both sides of 0.
/// Source: this project's profile.
pub fn put_decimal(value: i128, unit: &Unit, places: u32, to: &mut [u8; 64]) -> usize
    requires unit { IsUnit unit.now }
    requires places { places ≤ 6 }
    requires value { IsWithin (10 ^ 20) value }
    ensures text { take result to.new ≡ decimal_text value unit.now places }
    ensures rest { drop result to.new ≡ drop result to.old }
    ensures length { result ≤ 64 }
{
    let number = in_places(value, unit, places);
    if number < 0 {
        to[0] = b'-';
        put_placed(number.unsigned_abs(), places, to, 1)
    } else {
        put_placed(number.unsigned_abs(), places, to, 0)
    }
}

// The value as a number of units of the last place.
fn in_places(value: i128, unit: &Unit, places: u32) -> i128
    requires unit { IsUnit unit.now }
    requires places { places ≤ 6 }
    requires value { IsWithin (10 ^ 20) value }
    ensures { result ≡ quo_of (value *ℤ pos (unit.now.den * 10 ^ places)) (pos unit.now.num) }
{
    let scale = unit.den as u128 * 10u128.pow(places);
    quo(value * scale as i128, unit.num as i128)
}

// Writes `number` units of the last place.
fn put_placed(number: u128, places: u32, to: &mut [u8; 64], at: usize) -> usize
    requires places { places ≤ 6 }
    requires at { at ≤ 1 }
    ensures text { take result to.new ≡ take at to.old ++ placed number places }
    ensures rest { drop result to.new ≡ drop result to.old }
    ensures within { result ≤ 64 }
{
    let end = put_whole(number / 10u128.pow(places), to, at);
    if places == 0 {
        return end;
    }
    to[end] = b'.';
    put_last_digits(number, places, to, end + 1)
}

// Writes a whole number.
fn put_whole(number: u128, to: &mut [u8; 64], at: usize) -> usize
    requires { at ≤ 1 }
    ensures text { take result to.new ≡ take at to.old ++ decimal number }
    ensures rest { drop result to.new ≡ drop result to.old }
    ensures within { result ≤ 41 }
{
    let mut buffer = Buffer::new();
    put_bytes(buffer.format(number).as_bytes(), to, at)
}

// Writes the bytes.
fn put_bytes(piece: &[u8], to: &mut [u8; 64], at: usize) -> usize
    requires { at + length piece.now ≤ 64 }
    ensures text { take result to.new ≡ take at to.old ++ piece.now }
    ensures rest { drop result to.new ≡ drop result to.old }
    ensures end { result ≡ at + length piece.now }
{
    let end = at + piece.len();
    to[at..end].copy_from_slice(piece);
    end
}

// Writes the last decimal digits of the number.
fn put_last_digits(number: u128, count: u32, to: &mut [u8; 64], at: usize) -> usize
    requires count { count ≤ 6 }
    requires room { at + count ≤ 64 }
    ensures text { take result to.new ≡ take at to.old ++ last_digits count number }
    ensures rest { drop result to.new ≡ drop result to.old }
    ensures end { result ≡ at + count }
{
    let mut left = count;
    let mut end = at;
    while left > 0 {
        left -= 1;
        to[end] = b'0' + (number / 10u128.pow(left) % 10) as u8;
        end += 1;
    }
    end
}
