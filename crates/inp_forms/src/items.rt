// The items of a line.
ghost use Rattle.std.specs.Prelude.{◌≡◌, ◌≤◌};
ghost use Rattle.inp_lines.specs.Faults.{token_at};
ghost use Rattle.inp_forms.specs.Context.{context_of};
ghost use Rattle.inp_forms.specs.Items.{is_needed, item_of, least_of, values_of};

use crate::found::read_value;
use crate::item::{Item, Value};
use crate::known::Known;
use inp_lines::{Fault, Naming, too_few};
use net_types::Text;

/// The values of the items of a line: of each item that is there, and of those that are missing the ones that stand
/// in the form. The one fault of a line is 203 where it has too few items, and else that of its first item at fault.
#[tactic(auto, unfolding(crate::specs::Items::values_of))]
pub fn read_values<'a, const N: usize>(
    known: &Known<'a>,
    naming: Naming,
    items: &[Item; N],
    tokens: &'a [Text],
) -> Result<[Value; N], Fault>
    requires { N ≤ 64 }
    ensures { result ≡ values_of (context_of known.now) naming items.now tokens.now }
{
    if tokens.len() < least_of(items) {
        return Err(too_few(tokens));
    }
    let mut values = [Value::Nothing; N];
    for place in 0..N {
        match read_item(known, naming, items[place], tokens, place) {
            Ok(value) => values[place] = value,
            Err(fault) => return Err(fault),
        }
    }
    Ok(values)
}

/// How many items a line of a form needs.
pub fn least_of(items: &[Item]) -> usize
    ensures { result ≡ least_of items.now }
{
    let mut least = 0usize;
    for item in items {
        if is_needed(*item) {
            least += 1;
        }
    }
    least
}

/// Whether an item has to be there.
fn is_needed(item: Item) -> bool
    ensures { result ≡ is_needed item }
{
    match item {
        Item::Needed(_) => true,
        Item::Or(_, _) => false,
    }
}

/// The value of the item at a place of a line, or its fault.
fn read_item<'a>(
    known: &Known<'a>,
    naming: Naming,
    item: Item,
    tokens: &'a [Text],
    place: usize,
) -> Result<Value, Fault>
    ensures { result ≡ item_of (context_of known.now) naming item tokens.now place }
{
    match item {
        Item::Needed(what) => read_value(known, naming, what, text_at(tokens, place), place),
        Item::Or(value, what) => {
            if place < tokens.len() {
                read_value(known, naming, what, text_at(tokens, place), place)
            } else {
                Ok(value)
            }
        }
    }
}

/// The item at a place; past the last there is the empty text.
fn text_at(tokens: &[Text], place: usize) -> &[u8]
    ensures { result.now ≡ token_at tokens.now place }
{
    match tokens.get(place) {
        Some(token) => token.as_slice(),
        None => &[],
    }
}
