// The fault of a line.
ghost use Rattle.std.specs.Prelude.{◌≡◌, ◌∷◌, ◌++◌, [], OnOk, IfOk, ◌≤◌, length};
ghost use Rattle.inp_lines.specs.Faults.{cut, fault_of_kind, line_fault, token_at};

use crate::line::Line;
use net_types::{FaultKind, LineFault, List, OutOfMemory, Text};
use std::alloc::Global;

/// A fault of a line while the line is at hand: the fault's number and the place of the token at fault, counted
/// from 0. A place past the last token stands for the empty token.
#[derive(Clone, Copy, Debug, PartialEq, Eq)]
pub struct Fault {
    pub number: u32,
    pub place: usize,
}

/// A fault of a kind at the token of a place.
pub fn fault_of_kind(kind: FaultKind, place: usize) -> Fault
    ensures { result ≡ fault_of_kind kind place }
{
    Fault {
        number: kind.number(),
        place,
    }
}

/// A copy of the token at a place of a line; past the last there is the empty token.
pub fn copy_token(alloc: Global, line: &Line, place: usize) -> Result<Text, OutOfMemory>
    ensures { IfOk result (λ token. token ≡ token_at line.now.tokens place) }
{
    match line.tokens.as_slice().get(place) {
        Some(token) => Text::from_slice(alloc, token.as_slice()),
        None => Text::from_slice(alloc, &[]),
    }
}

/// The fault with its line's number and a copy of the token at fault.
pub fn fault_of_line(alloc: Global, line: &Line, fault: Fault) -> Result<LineFault, OutOfMemory>
    ensures { IfOk result (λ made. made ≡ line_fault line.now fault) }
{
    Ok(LineFault {
        line: line.number,
        number: fault.number,
        token: copy_token(alloc, line, fault.place)?,
    })
}

/// Appends the fault of a line to a list that keeps the first hundred faults.
pub fn add_fault(
    alloc: Global,
    faults: &mut List<LineFault>,
    line: &Line,
    fault: Fault,
) -> Result<(), OutOfMemory>
    requires short { length faults.old ≤ 100 }
    ensures short { OnOk result (length faults.new ≤ 100) }
    ensures faults { OnOk result (faults.new ≡ cut (faults.old ++ line_fault line.now fault ∷ [])) }
{
    if faults.as_slice().len() < 100 {
        let made = fault_of_line(alloc, line, fault)?;
        faults.push(made)?;
    }
    Ok(())
}
