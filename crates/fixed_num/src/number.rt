ghost use Rattle.std.specs.Prelude.{◌≡◌, ◌^◌, ◌≤◌, length, min, IfSome};
ghost use Rattle.std.specs.Char.{is_ascii_digit};
ghost use Rattle.std.specs.List.{take_while};
ghost use Rattle.fixed_num.specs.Ranges.{IsWithin};
ghost use Rattle.fixed_num.specs.Number.{AreDigits, IsSmall, digits_after, exponent_of, fraction_of, is_minus};
ghost use Rattle.fixed_num.specs.Number.{joined, number_of, past_digits, past_fraction, past_sign, power_of};

/// The number that a text stands for: `digits * 10 ^ power`, below 0 where `negative`.
#[derive(Clone, Copy, Debug)]
pub(crate) struct Number {
    pub(crate) negative: bool,
    pub(crate) digits: u64,
    pub(crate) power: i32,
}

const MOST_BYTES: usize = 40;

const MOST_PLACES: usize = 18;

const DIGITS_LIMIT: u64 = 1_000_000_000_000_000_000;

// How many digits stand at the front.
fn count_digits(text: &[u8]) -> usize
    ensures { result ≡ length (take_while is_ascii_digit text.now) }
{
    text.iter().take_while(|c| c.is_ascii_digit()).count()
}

// The digits at the front, and what follows them.
#[tactic(auto, using(crate::proofs::NumberLemmas::fronts))]
fn split_digits(text: &[u8]) -> (&[u8], &[u8])
    ensures front { result.0.now ≡ take_while is_ascii_digit text.now }
    ensures digits { AreDigits result.0.now }
    ensures rest { result.1.now ≡ past_digits text.now }
{
    text.split_at(count_digits(text))
}

fn is_minus(text: &[u8]) -> bool
    ensures { result ≡ is_minus text.now }
{
    matches!(text, [b'-', ..])
}

fn past_sign(text: &[u8]) -> &[u8]
    ensures { result.now ≡ past_sign text.now }
{
    match text {
        [b'+' | b'-', rest @ ..] => rest,
        _ => text,
    }
}

// The digits after a point, and what follows them.
fn split_fraction(text: &[u8]) -> (&[u8], &[u8])
    ensures fraction { result.0.now ≡ fraction_of text.now }
    ensures digits { AreDigits result.0.now }
    ensures rest { result.1.now ≡ past_fraction text.now }
{
    match text {
        [b'.', rest @ ..] => split_digits(rest),
        _ => (&text[..0], text),
    }
}

fn read_exponent(negative: bool, text: &[u8]) -> Option<i32>
    ensures value { result ≡ exponent_of negative text.now }
    ensures small { IfSome result (IsWithin 9) }
{
    match text {
        [digit] if digit.is_ascii_digit() => {
            let exponent = (*digit - b'0') as i32;
            Some(if negative { -exponent } else { exponent })
        }
        _ => None,
    }
}

fn read_power(text: &[u8]) -> Option<i32>
    ensures value { result ≡ power_of text.now }
    ensures small { IfSome result (IsWithin 9) }
{
    match text {
        [] => Some(0),
        [b'e' | b'E', rest @ ..] => read_exponent(is_minus(rest), past_sign(rest)),
        _ => None,
    }
}

// The number that digits write behind those of `number`, cut at the limit.
fn add_digits(number: u64, digits: &[u8]) -> u64
    requires small { number ≤ 10 ^ 18 }
    requires digits { AreDigits digits.now }
    ensures { result ≡ min (digits_after number digits.now) (10 ^ 18) }
{
    let mut total = number;
    for digit in digits {
        total = (total * 10 + (*digit - b'0') as u64).min(DIGITS_LIMIT);
    }
    total
}

// The number of its parts, if they are within the limits.
fn join(negative: bool, whole: &[u8], fraction: &[u8], power: i32) -> Option<Number>
    requires whole { AreDigits whole.now }
    requires fraction { AreDigits fraction.now }
    requires power { IsWithin 9 power }
    ensures { result ≡ joined negative whole.now fraction.now (Some power) }
{
    if whole.len() + fraction.len() == 0 {
        return None;
    }
    if fraction.len() > MOST_PLACES {
        return None;
    }
    let digits = add_digits(add_digits(0, whole), fraction);
    if digits >= DIGITS_LIMIT {
        return None;
    }
    Some(Number {
        negative,
        digits,
        power: power - fraction.len() as i32,
    })
}

/// The number that a text stands for, if it is one.
pub(crate) fn read_number(text: &[u8]) -> Option<Number>
    ensures value { result ≡ number_of text.now }
    ensures small { IfSome result IsSmall }
{
    if text.len() > MOST_BYTES {
        return None;
    }
    let (whole, rest) = split_digits(past_sign(text));
    let (fraction, rest) = split_fraction(rest);
    let Some(power) = read_power(rest) else {
        return None;
    };
    join(is_minus(text), whole, fraction, power)
}
