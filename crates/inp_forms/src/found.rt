// The value of one item.
ghost use Rattle.std.specs.Prelude.{◌≡◌, option_map, pos};
ghost use Rattle.inp_forms.specs.declared.item.Value.TheVariants.{Amount, Choice, Index, Switch};
ghost use Rattle.inp_forms.specs.Context.{context_of, object_number};
ghost use Rattle.inp_values.specs.Switch.{switch_of};
ghost use Rattle.inp_forms.specs.Keywords.{keyword_of};
ghost use Rattle.inp_forms.specs.Values.{checked, found_of, is_star, maybe_of, profile_or_name, pump_curve_of};
ghost use Rattle.inp_forms.specs.Values.{value_of, wrong_of};

use crate::item::{Objects, Value, What};
use crate::known::{Known, object_number};
use crate::numbers::{
    amount_from, amount_only, halves, hours_between, number, weir_coefficient, whole_between,
};
use crate::words::{Words, word_fault, word_of};
use inp_lines::{Fault, Naming, fault_of_kind, new_name};
use inp_values::yes_no;
use net_types::FaultKind;

/// The value of an item by its text, or the fault of another text; a name has to be new too. The fault stands at the
/// item's place.
#[tactic(auto, unfolding(crate::specs::Values::value_of))]
pub fn read_value<'a>(
    known: &Known<'a>,
    naming: Naming,
    what: What,
    text: &'a [u8],
    place: usize,
) -> Result<Value, Fault>
    ensures { result ≡ value_of (context_of known.now) naming what text.now place }
{
    match found_value(known, what, text) {
        Some(value) => checked(naming, what, value),
        None => Err(fault_of_kind(wrong(known, what, text), place)),
    }
}

/// A value that is found, where a name is new too.
fn checked(naming: Naming, what: What, value: Value) -> Result<Value, Fault>
    ensures { result ≡ checked naming what value }
{
    match what {
        What::Name | What::Own(_) => {
            new_name(naming)?;
            Ok(value)
        }
        _ => Ok(value),
    }
}

/// The value of an item by its text, if it has one.
#[tactic(auto, unfolding(crate::specs::Values::found_of))]
pub fn found_value<'a>(known: &Known<'a>, what: What, text: &'a [u8]) -> Option<Value>
    ensures { result ≡ found_of (context_of known.now) what text.now }
{
    match what {
        What::Name | What::Unused => Some(Value::Nothing),
        What::End => None,
        What::Own(objects) | What::Object(objects) => index(object_number(known, objects, text)),
        What::Maybe(objects) => maybe(known, objects, text),
        What::PumpCurve => pump_curve(known, text),
        What::Outlet => index(object_number(known, Objects::Nodes, text)),
        What::Number(quantity) => amount(number(known.units, quantity, text)),
        What::AtLeast(least, quantity) => {
            amount(amount_from(least, number(known.units, quantity, text)))
        }
        What::Only(only, quantity) => {
            amount(amount_only(only, number(known.units, quantity, text)))
        }
        What::Whole(least, most) => amount(whole_between(least, most, text)),
        What::WeirCoefficient => amount(weir_coefficient(known.units, text)),
        What::Halves => index(halves(known.units, text)),
        What::Hours(least, most) => amount(hours_between(least, most, text)),
        What::Word(words) => choice(words, text),
        What::YesNo => switch(text),
    }
}

/// A number as a value.
fn amount(number: Option<i64>) -> Option<Value>
    ensures { result ≡ option_map (λ number. Amount number) number }
{
    match number {
        Some(number) => Some(Value::Amount(number)),
        None => None,
    }
}

/// The number of an object as a value.
fn index(number: Option<u32>) -> Option<Value>
    ensures { result ≡ option_map (λ number. Index number) number }
{
    match number {
        Some(number) => Some(Value::Index(number)),
        None => None,
    }
}

/// A keyword as a value.
fn choice(words: Words, text: &[u8]) -> Option<Value>
    ensures { result ≡ option_map (λ keyword. Choice keyword) (keyword_of words text.now) }
{
    match word_of(words, text) {
        Some(keyword) => Some(Value::Choice(keyword)),
        None => None,
    }
}

/// YES or NO as a value.
fn switch(text: &[u8]) -> Option<Value>
    ensures { result ≡ option_map (λ on. Switch on) (switch_of text.now) }
{
    match yes_no(text) {
        Some(on) => Some(Value::Switch(on)),
        None => None,
    }
}

/// The object of a name, or nothing for the empty text.
fn maybe<'a>(known: &Known<'a>, objects: Objects, text: &'a [u8]) -> Option<Value>
    ensures { result ≡ maybe_of (context_of known.now) objects text.now }
{
    match text {
        [] => Some(Value::Nothing),
        [_, ..] => index(object_number(known, objects, text)),
    }
}

/// The curve of a pump.
fn pump_curve<'a>(known: &Known<'a>, text: &'a [u8]) -> Option<Value>
    ensures { result ≡ pump_curve_of (context_of known.now) text.now }
{
    if is_star(text) {
        None
    } else {
        index(object_number(known, Objects::PumpCurves, text))
    }
}

/// Whether a text is `*`.
fn is_star(text: &[u8]) -> bool
    ensures { result ≡ is_star text.now }
{
    match text {
        [b'*'] => true,
        _ => false,
    }
}

/// The fault of a text that isn't what the item has to be.
#[tactic(auto, unfolding(crate::specs::Values::wrong_of))]
fn wrong<'a>(known: &Known<'a>, what: What, text: &'a [u8]) -> FaultKind
    ensures { result ≡ wrong_of (context_of known.now) what text.now }
{
    match what {
        What::Name => FaultKind::DuplicateName,
        What::Own(_) | What::Object(_) | What::Maybe(_) => FaultKind::UndefinedName,
        What::PumpCurve => profile_or_name(is_star(text)),
        What::Outlet => {
            profile_or_name(object_number(known, Objects::Subcatchments, text).is_some())
        }
        What::Number(_) | What::AtLeast(_, _) => FaultKind::InvalidNumber,
        What::Whole(_, _) | What::WeirCoefficient => FaultKind::InvalidNumber,
        What::Only(_, _) | What::Halves | What::End => FaultKind::NotInProfile,
        What::Hours(_, _) => FaultKind::InvalidTime,
        What::Word(words) => word_fault(words, text),
        What::YesNo | What::Unused => FaultKind::InvalidKeyword,
    }
}

/// The fault of a name: it stands for something that isn't in this profile, or for nothing.
fn profile_or_name(outside: bool) -> FaultKind
    ensures { result ≡ profile_or_name outside }
{
    if outside {
        FaultKind::NotInProfile
    } else {
        FaultKind::UndefinedName
    }
}
