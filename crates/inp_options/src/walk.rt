// The faults of option lines.
ghost use Rattle.std.specs.Prelude.{◌≡◌, [], OnOk};
ghost use Rattle.inp_lines.specs.Faults.{cut};
ghost use Rattle.inp_lines.specs.Gather.{gather};
ghost use Rattle.inp_lines.specs.Merge.{merged};
ghost use Rattle.inp_options.specs.OptionLines.{fault_of, option_fault, reading_of};

use crate::line::read_line;
use inp_lines::{Fault, Line, LineWalk, Reading, merge_faults, walk_lines};
use net_types::{FlowUnits, LineFault, List, OutOfMemory};
use std::alloc::Global;

/// The flow units under which option lines are looked through for faults.
#[derive(Clone, Copy, Debug)]
struct OptionFaults {
    units: FlowUnits,
}

impl<'a> LineWalk<'a> for OptionFaults {
    ghost use Rattle.std.specs.Prelude.{⊤};

    ghost fault_of = { λ walk. λ before line. fault_of (reading_of walk.units line) };

    ghost is_after = { λ walk. λ before lines. ⊤ };

    fn step(&mut self, _alloc: Global, line: &'a Line) -> Result<Option<Fault>, OutOfMemory> {
        Ok(fault_in(self.units, line))
    }
}

// The fault of an option line.
fn fault_in(units: FlowUnits, line: &Line) -> Option<Fault>
    ensures { result ≡ fault_of (reading_of units line.now) }
{
    match read_line(units, line) {
        Reading::Other => None,
        Reading::Record(_) => None,
        Reading::Faulty(fault) => Some(fault),
    }
}

/// Merges the faults of option lines into those that were found before.
pub(crate) fn merge_option_faults(
    alloc: Global,
    units: FlowUnits,
    lines: &List<Line>,
    faults: &mut List<LineFault>,
) -> Result<(), OutOfMemory>
    ensures { OnOk result (faults.new ≡ cut (merged faults.old (cut (gather (option_fault units) [] lines.now)))) }
{
    let mut walk = OptionFaults { units };
    let mut mine = List::new(alloc);
    walk_lines(alloc, &mut walk, lines, &mut mine)?;
    merge_faults(alloc, faults, &mine)
}
