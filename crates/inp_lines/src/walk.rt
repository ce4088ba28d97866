// A walk over lines that builds its records as it goes.
ghost use Rattle.std.specs.Prelude.{◌≡◌, ◌≤◌, ◌∷◌, ◌++◌, [], List as Sequence, Option as Maybe, length, IfOk, OnOk};
ghost use Rattle.inp_lines.specs.declared.line.Line.{Line as DataLine};
ghost use Rattle.inp_lines.specs.declared.fault.Fault.{Fault as FaultOf};
ghost use Rattle.inp_lines.specs.Faults.{cut};
ghost use Rattle.inp_lines.specs.Gather.{gather, walk_fault, fault_found};
ghost use Rattle.inp_lines.specs.Walks.{ComesNext, Finds, GoesOn};

use crate::fault::{Fault, add_fault};
use crate::line::Line;
use net_types::{LineFault, List, OutOfMemory};
use std::alloc::Global;

/// A reader of lines where a record is made of several lines.
pub trait LineWalk<'a> {
    ghost fault_of: { Self → Sequence DataLine → DataLine → Maybe FaultOf };

    ghost is_after: { Self → Sequence DataLine → Sequence DataLine → Type 0 };

    /// Reads the next line. What the reader holds after some lines of all lines is said by `is_after`.
    fn step(&mut self, alloc: Global, line: &'a Line) -> Result<Option<Fault>, OutOfMemory>
        requires { ComesNext (is_after self.old) line.now }
        ensures after { IfOk result (λ _. GoesOn (is_after self.old) (is_after self.new) line.now) }
        ensures fault { IfOk result (λ fault. Finds (is_after self.old) line.now fault (fault_of self.old)) }
        ensures same { OnOk result (fault_of self.new ≡ fault_of self.old) };
}

/// Reads all lines in order.
pub fn walk_lines<'a, W: LineWalk<'a>>(
    alloc: Global,
    walk: &mut W,
    lines: &'a List<Line>,
    faults: &mut List<LineFault>,
) -> Result<(), OutOfMemory>
    requires start { W.is_after walk.old [] lines.now }
    requires short { length faults.old ≤ 100 }
    ensures after { OnOk result (W.is_after walk.new lines.now lines.now) }
    ensures faults { OnOk result (faults.new
        ≡ cut (faults.old ++ gather (walk_fault (W.fault_of walk.old)) [] lines.now)) }
    ensures same { OnOk result (W.fault_of walk.new ≡ W.fault_of walk.old) }
    ensures short { OnOk result (length faults.new ≤ 100) }
{
    for line in lines.as_slice() {
        let fault = walk.step(alloc, line)?;
        keep_fault(alloc, faults, line, fault)?;
    }
    Ok(())
}

/// Appends the fault of a line, if it has one.
fn keep_fault(
    alloc: Global,
    faults: &mut List<LineFault>,
    line: &Line,
    fault: Option<Fault>,
) -> Result<(), OutOfMemory>
    requires short { length faults.old ≤ 100 }
    ensures faults { OnOk result (faults.new ≡ cut (faults.old ++ fault_found line.now fault)) }
    ensures short { OnOk result (length faults.new ≤ 100) }
{
    match fault {
        Some(fault) => add_fault(alloc, faults, line, fault),
        None => Ok(()),
    }
}
