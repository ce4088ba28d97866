// The values of tests and actions.
ghost use Rattle.std.specs.Prelude.{◌≡◌, codes};
ghost use Rattle.inp_forms.specs.Context.{context_of};
ghost use Rattle.inp_lines.specs.Faults.{token_at};
ghost use Rattle.inp_rules.specs.RuleValues.{amount_in as amount_of, either_status, found_or, number_at, object_at};
ghost use Rattle.inp_rules.specs.RuleValues.{set_value as set_value_of, setting_at, setting_by, status_by};
ghost use Rattle.inp_rules.specs.RuleValues.{subject_value as value_of_subject, tested_value as tested_value_of};
ghost use Rattle.inp_rules.specs.RuleValues.{up_to_one, what_of as what_of_subject};

use crate::words::{Looked, Part, is_outside};
use inp_forms::{Known, Objects, Value, What, object_number, read_value};
use inp_lines::{Fault, Naming, fault_of_kind};
use inp_values::{Quantity, is_word, time_of_day};
use net_types::{FaultKind, Subject, Text};

/// The item at a place; past the last there is the empty text.
pub(crate) fn text_at(tokens: &[Text], place: usize) -> &[u8]
    ensures { result.now ≡ token_at tokens.now place }
{
    match tokens.get(place) {
        Some(token) => token.as_slice(),
        None => &[],
    }
}

/// The number of the object of a name, or 209.
pub(crate) fn object<'a>(
    known: &Known<'a>,
    objects: Objects,
    name: &'a [u8],
    place: usize,
) -> Result<u32, Fault>
    ensures { result ≡ object_at (context_of known.now) objects name.now place }
{
    match object_number(known, objects, name) {
        Some(number) => Ok(number),
        None => Err(fault_of_kind(FaultKind::UndefinedName, place)),
    }
}

/// A number that is there, or a fault.
fn found(value: Option<i64>, kind: FaultKind, place: usize) -> Result<i64, Fault>
    ensures { result ≡ found_or value kind place }
{
    match value {
        Some(value) => Ok(value),
        None => Err(fault_of_kind(kind, place)),
    }
}

/// The number in a value.
fn amount_in(value: Value) -> i64
    ensures { result ≡ amount_of value }
{
    match value {
        Value::Amount(amount) => amount,
        _ => 0,
    }
}

/// A number of an item of a form, or the item's fault.
pub(crate) fn number<'a>(
    known: &Known<'a>,
    what: What,
    text: &'a [u8],
    place: usize,
) -> Result<i64, Fault>
    ensures { result ≡ number_at (context_of known.now) what text.now place }
{
    match read_value(known, Naming::First, what, text, place) {
        Ok(value) => Ok(amount_in(value)),
        Err(fault) => Err(fault),
    }
}

/// The setting of the words of a status in a test.
fn either_setting(text: &[u8]) -> Option<i64>
    ensures { result ≡ either_status text.now }
{
    if is_word(text, b"ON") {
        Some(1_000_000)
    } else if is_word(text, b"OPEN") {
        Some(1_000_000)
    } else if is_word(text, b"OFF") {
        Some(0)
    } else if is_word(text, b"CLOSED") {
        Some(0)
    } else {
        None
    }
}

/// What a value has to be by its subject.
fn what_of(subject: Subject) -> What
    ensures { result ≡ what_of_subject subject }
{
    match subject {
        Subject::NodeDepth(_) => What::Number(Quantity::Depth),
        Subject::NodeHead(_) => What::Number(Quantity::Elevation),
        Subject::NodeInflow(_) => What::Number(Quantity::Flow),
        Subject::LinkFlow(_) => What::Number(Quantity::Flow),
        Subject::LinkSetting(_) => What::Number(Quantity::Coefficient),
        Subject::Elapsed => What::Hours(0, 1_000_000_000_000),
        Subject::ClockTime => What::Hours(0, 86_399_999),
        Subject::Month => What::Whole(1, 12),
        Subject::Weekday => What::Whole(1, 7),
    }
}

/// The number with which a subject is compared.
fn subject_value<'a>(
    known: &Known<'a>,
    subject: Subject,
    text: &'a [u8],
    place: usize,
) -> Result<i64, Fault>
    ensures { result ≡ value_of_subject (context_of known.now) subject text.now place }
{
    match subject {
        Subject::ClockTime => found(time_of_day(text), FaultKind::InvalidTime, place),
        _ => number(known, what_of(subject), text, place),
    }
}

/// The value with which a test compares, or its fault.
#[tactic(auto, unfolding(crate::specs::RuleValues::tested_value))]
pub(crate) fn tested_value<'a>(
    known: &Known<'a>,
    looked: Looked,
    text: &'a [u8],
    place: usize,
) -> Result<i64, Fault>
    ensures { result ≡ tested_value_of (context_of known.now) looked text.now place }
{
    if looked.by_status {
        found(either_setting(text), FaultKind::InvalidKeyword, place)
    } else {
        subject_value(known, looked.subject, text, place)
    }
}

/// The setting of a status that is one of two words.
fn setting_of(on: &[u8], off: &[u8], text: &[u8]) -> Option<i64>
    ensures { result ≡ setting_by on.now off.now text.now }
{
    if is_word(text, on) {
        Some(1_000_000)
    } else if is_word(text, off) {
        Some(0)
    } else {
        None
    }
}

/// The same, or a fault.
fn status(on: &[u8], off: &[u8], text: &[u8], place: usize) -> Result<i64, Fault>
    ensures { result ≡ status_by on.now off.now text.now place }
{
    found(setting_of(on, off, text), FaultKind::InvalidKeyword, place)
}

/// A setting that is at most 1, or a fault.
fn up_to_one(value: i64, place: usize) -> Result<i64, Fault>
    ensures { result ≡ up_to_one value place }
{
    if value <= 1_000_000 {
        Ok(value)
    } else {
        Err(fault_of_kind(FaultKind::InvalidNumber, place))
    }
}

/// The setting of an action, or its fault.
fn setting<'a>(known: &Known<'a>, text: &'a [u8], place: usize) -> Result<i64, Fault>
    ensures { result ≡ setting_at (context_of known.now) text.now place }
{
    if is_outside(text) {
        return Err(fault_of_kind(FaultKind::NotInProfile, place));
    }
    match number(known, What::Number(Quantity::Coefficient), text, place) {
        Ok(value) => up_to_one(value, place),
        Err(fault) => Err(fault),
    }
}

/// The setting that an action gives, or its fault.
#[tactic(auto, unfolding(crate::specs::RuleValues::set_value))]
pub(crate) fn set_value<'a>(
    known: &Known<'a>,
    part: Part,
    text: &'a [u8],
    place: usize,
) -> Result<i64, Fault>
    ensures { result ≡ set_value_of (context_of known.now) part text.now place }
{
    match part {
        Part::PumpStatus => status(b"ON", b"OFF", text, place),
        Part::ConduitStatus => status(b"OPEN", b"CLOSED", text, place),
        Part::Setting => setting(known, text, place),
    }
}
