// The flows that lines give nodes.
ghost use Rattle.std.specs.Prelude.{◌≡◌, [], IfOk, OnOk};
ghost use Rattle.inp_lines.specs.Faults.{cut};
ghost use Rattle.inp_lines.specs.Gather.{gather};
ghost use Rattle.inp_lines.specs.Merge.{merged};
ghost use Rattle.inp_lines.specs.Order.{Rise};
ghost use Rattle.inp_forms.specs.Context.{context_of};
ghost use Rattle.inp_inflows.specs.Counted.{counted_fault, counted_of};
ghost use Rattle.inp_inflows.specs.Inflows.{dry_form, inflow_form};
ghost use Rattle.inp_reader.specs.Flows.{flow_fault};

use inp_forms::Known;
use inp_inflows::{read_dry, read_inflows};
use inp_lines::{Line, merge_faults};
use net_types::{DryFlow, Inflow, LineFault, List, OutOfMemory};
use std::alloc::Global;

/// The direct inflows and dry weather flows of an input, and the first hundred faults of their lines.
#[derive(Debug, Drop)]
pub(crate) struct Flows {
    pub(crate) inflows: List<Inflow>,
    pub(crate) dry: List<DryFlow>,
    pub(crate) faults: List<LineFault>,
}

/// Reads the direct inflows and dry weather flows of an input (User's Manual, sections [INFLOWS] and [DWF]).
pub(crate) fn read_flows<'a>(
    alloc: Global,
    known: &Known<'a>,
    lines: &'a List<Line>,
) -> Result<Flows, OutOfMemory>
    requires rise { Rise 0 lines.now }
    ensures inflows { IfOk result (λ flows. flows.inflows ≡ counted_of (context_of known.now) inflow_form lines.now) }
    ensures dry { IfOk result (λ flows. flows.dry ≡ counted_of (context_of known.now) dry_form lines.now) }
    ensures faults { IfOk result (λ flows.
        flows.faults ≡ cut (gather (flow_fault (context_of known.now)) [] lines.now)) }
{
    let mut inflows = List::new(alloc);
    let mut faults = read_inflows(alloc, known, lines, &mut inflows)?;
    let dry = dry_in(alloc, known, lines, &mut faults)?;
    Ok(Flows {
        inflows,
        dry,
        faults,
    })
}

/// The dry weather flows of an input, whose faults are merged into the others.
fn dry_in<'a>(
    alloc: Global,
    known: &Known<'a>,
    lines: &'a List<Line>,
    faults: &mut List<LineFault>,
) -> Result<List<DryFlow>, OutOfMemory>
    ensures dry { IfOk result (λ dry. dry ≡ counted_of (context_of known.now) dry_form lines.now) }
    ensures faults { OnOk result (faults.new
        ≡ cut (merged faults.old (cut (gather (counted_fault (context_of known.now) dry_form) [] lines.now)))) }
{
    let mut dry = List::new(alloc);
    let found = read_dry(alloc, known, lines, &mut dry)?;
    merge_faults(alloc, faults, &found)?;
    Ok(dry)
}
