// What a line is read as, and the words that readers of lines share.
ghost use Rattle.std.specs.Prelude.{◌≡◌, option_map};
ghost use Rattle.inp_lines.specs.Readings.{is_long, name_with_of, needed_of, new_name_of, reading_from};
ghost use Rattle.inp_lines.specs.Faults.{too_few_of};

use crate::fault::{Fault, fault_of_kind};
use crate::line::Line;
use crate::names::Naming;
use net_types::{FaultKind, Text};

/// What a line is read as.
#[derive(Debug, Drop)]
pub enum Reading<T> {
    /// A line of another kind, or one that adds nothing and has no fault.
    Other,
    /// A line that gives a record.
    Record(T),
    /// A line at fault.
    Faulty(Fault),
}

/// Whether a line has more than 1,024 bytes. Such a line is at fault for its length alone, and read no further.
pub fn is_too_long(line: &Line) -> bool
    ensures { result ≡ is_long line.now }
{
    line.bytes.as_slice().len() > 1024
}

/// The name that a line defines if it has `least` items: its first token, unless the line is too long.
pub fn name_with<'a>(line: &'a Line, least: usize) -> Option<&'a [u8]>
    ensures { option_map (λ name. name.now) result ≡ name_with_of least line.now }
{
    if is_too_long(line) {
        return None;
    }
    let tokens = line.tokens.as_slice();
    if tokens.len() < least {
        return None;
    }
    match tokens {
        [] => None,
        [name, ..] => Some(name.as_slice()),
    }
}

/// The fault of a line that has too few items, at its last token.
pub fn too_few(tokens: &[Text]) -> Fault
    ensures { result ≡ too_few_of tokens.now }
{
    fault_of_kind(FaultKind::TooFewItems, tokens.len().saturating_sub(1))
}

/// The value of an item, or a fault of a kind at its place.
pub fn needed<T: Drop>(value: Option<T>, kind: FaultKind, place: usize) -> Result<T, Fault>
    ensures { result ≡ needed_of value kind place }
{
    match value {
        Some(value) => Ok(value),
        None => Err(fault_of_kind(kind, place)),
    }
}

/// Whether a line's name, its first token, is new: a duplicate where it was defined before, and over the limit where
/// there are as many names as may be.
pub fn new_name(naming: Naming) -> Result<(), Fault>
    ensures { result ≡ new_name_of naming }
{
    match naming {
        Naming::First => Ok(()),
        Naming::Repeated => Err(fault_of_kind(FaultKind::DuplicateName, 0)),
        Naming::OverLimit => Err(fault_of_kind(FaultKind::OverLimit, 0)),
    }
}

/// A line's reading from its record or its fault.
pub fn reading_of<T>(outcome: Result<T, Fault>) -> Reading<T>
    ensures { result ≡ reading_from outcome }
{
    match outcome {
        Ok(record) => Reading::Record(record),
        Err(fault) => Reading::Faulty(fault),
    }
}
