ghost use Rattle.std.specs.Prelude.{◌≡◌, ℕ, ◌^◌, ◌<◌, ◌≤◌, length, IfSome, IfNone};
ghost use Rattle.std.specs.Char.{is_ascii_digit};
ghost use Rattle.std.specs.List.{list_all, take_while};
ghost use Rattle.fixed_num.specs.Number.{AreDigits, digits_after, past_digits};
ghost use Rattle.inp_values.specs.Field.{IsField, IsWhole, field_of, is_field, whole_of};

/// The whole number that a text of one to nine digits and nothing else writes, from 0 to 999,999,999, and none for
/// every other text (this project's profile).
pub fn whole(text: &[u8]) -> Option<u32>
    ensures some { IfSome result (IsWhole text.now) }
    ensures none { IfNone result ((n : ℕ) → ¬ (IsWhole text.now n)) }
    ensures value { result ≡ whole_of text.now }
    ensures range { IfSome result (λ n. n < 10 ^ 9) }
{
    field(text, 1, 9)
}

/// The number that a text of at least and at most so many digits writes.
pub(crate) fn field(text: &[u8], least: usize, most: usize) -> Option<u32>
    requires { most ≤ 9 }
    ensures some { IfSome result (IsField least most text.now) }
    ensures none { IfNone result ((n : ℕ) → ¬ (IsField least most text.now n)) }
    ensures value { result ≡ field_of least most text.now }
    ensures range { IfSome result (λ n. n < 10 ^ most) }
{
    if !is_field(text, least, most) {
        return None;
    }
    Some(read_digits(text))
}

/// The text is at least and at most so many digits and nothing else.
fn is_field(text: &[u8], least: usize, most: usize) -> bool
    ensures { result ≡ is_field least most text.now }
{
    all_digits(text) && text.len() >= least && text.len() <= most
}

fn all_digits(text: &[u8]) -> bool
    ensures { result ≡ list_all is_ascii_digit text.now }
{
    text.iter().all(|c| c.is_ascii_digit())
}

/// The number that up to nine digits write.
fn read_digits(digits: &[u8]) -> u32
    requires digits { AreDigits digits.now }
    requires count { length digits.now ≤ 9 }
    ensures value { result ≡ digits_after 0 digits.now }
    ensures range { result < 10 ^ length digits.now }
{
    let mut total = 0u32;
    for digit in digits {
        total = total * 10 + (*digit - b'0') as u32;
    }
    total
}

/// How many digits stand at the front.
fn count_digits(text: &[u8]) -> usize
    ensures { result ≡ length (take_while is_ascii_digit text.now) }
{
    text.iter().take_while(|c| c.is_ascii_digit()).count()
}

/// The digits at the front, and what follows them.
#[tactic(auto, using(fixed_num::proofs::NumberLemmas::fronts))]
pub(crate) fn split_digits(text: &[u8]) -> (&[u8], &[u8])
    ensures front { result.0.now ≡ take_while is_ascii_digit text.now }
    ensures rest { result.1.now ≡ past_digits text.now }
{
    text.split_at(count_digits(text))
}
