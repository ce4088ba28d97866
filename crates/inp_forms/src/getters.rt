// The values of a line by their places.
ghost use Rattle.std.specs.Prelude.{◌≡◌};
ghost use Rattle.inp_forms.specs.Getters.{amount_at, choice_at, index_at, index_or_none, is_on, value_at};

use crate::item::Value;
use crate::words::Keyword;

/// The value at a place; past the last there is nothing.
pub fn value_at(values: &[Value], place: usize) -> Value
    ensures { result ≡ value_at values.now place }
{
    match values.get(place) {
        Some(value) => *value,
        None => Value::Nothing,
    }
}

/// The number at a place, and 0 where there is none.
pub fn amount(values: &[Value], place: usize) -> i64
    ensures { result ≡ amount_at values.now place }
{
    match value_at(values, place) {
        Value::Amount(amount) => amount,
        _ => 0,
    }
}

/// The number of the object at a place, and 0 where there is none.
pub fn index(values: &[Value], place: usize) -> u32
    ensures { result ≡ index_at values.now place }
{
    match value_at(values, place) {
        Value::Index(index) => index,
        _ => 0,
    }
}

/// The number of the object at a place, if there is one.
pub fn index_or_none(values: &[Value], place: usize) -> Option<u32>
    ensures { result ≡ index_or_none values.now place }
{
    match value_at(values, place) {
        Value::Index(index) => Some(index),
        _ => None,
    }
}

/// Whether YES or ON stands at a place.
pub fn is_on(values: &[Value], place: usize) -> bool
    ensures { result ≡ is_on values.now place }
{
    match value_at(values, place) {
        Value::Switch(on) => on,
        Value::Choice(Keyword::On) => true,
        _ => false,
    }
}

/// The keyword at a place, if there is one.
pub fn choice(values: &[Value], place: usize) -> Option<Keyword>
    ensures { result ≡ choice_at values.now place }
{
    match value_at(values, place) {
        Value::Choice(keyword) => Some(keyword),
        _ => None,
    }
}
