// Direct inflows: the section INFLOWS.
ghost use Rattle.std.specs.Prelude.{◌≡◌, ◌++◌, [], IfOk, OnOk};
ghost use Rattle.inp_lines.specs.Faults.{cut};
ghost use Rattle.inp_lines.specs.Gather.{gather};
ghost use Rattle.inp_forms.specs.Context.{context_of};
ghost use Rattle.inp_inflows.specs.Counted.{counted_fault, counted_of};
ghost use Rattle.inp_inflows.specs.Inflows.{inflow_form, inflow_row, is_inflow_section};

use crate::counted::{Counted, read_counted};
use inp_forms::{
    Form, Item, Keyword, Known, Objects, Value, What, Words, amount, index, index_or_none,
};
use inp_lines::{Line, SectionName};
use inp_values::Quantity;
use net_types::{Inflow, LineFault, List, OutOfMemory};
use std::alloc::Global;

/// The items of a direct inflow: node, constituent, series, type, units factor, scale, baseline, and the pattern of the
/// baseline.
pub(crate) const INFLOW: [Item; 8] = [
    Item::Needed(What::Object(Objects::Nodes)),
    Item::Needed(What::Word(Words::Constituent)),
    Item::Needed(What::Maybe(Objects::Series)),
    Item::Or(Value::Choice(Keyword::Flow), What::Word(Words::InflowType)),
    Item::Or(
        Value::Amount(1_000_000),
        What::Only(1_000_000, Quantity::Raw),
    ),
    Item::Or(Value::Amount(1_000_000), What::Number(Quantity::Raw)),
    Item::Or(Value::Amount(0), What::Number(Quantity::Raw)),
    Item::Or(Value::Nothing, What::Object(Objects::Patterns)),
];

struct Inflows;

impl Form<8> for Inflows {
    type Record = Inflow;

    ghost form = { inflow_row };

    fn items() -> [Item; 8] {
        INFLOW
    }

    fn make(_: Global, _: &Line, values: &[Value]) -> Result<Inflow, OutOfMemory> {
        Ok(Inflow {
            node: index(values, 0),
            series: index_or_none(values, 2),
            scale6: amount(values, 5),
            base6: amount(values, 6),
            pattern: index_or_none(values, 7),
        })
    }
}

impl Counted<8> for Inflows {
    ghost is_of = { is_inflow_section };

    fn is_of(section: SectionName) -> bool {
        matches!(section, SectionName::Inflows)
    }
}

/// Reads the direct inflows that lines give, appends them, and gives the first hundred faults of their lines (User's
/// Manual, section [INFLOWS]).
pub fn read_inflows<'a>(
    alloc: Global,
    known: &Known<'a>,
    lines: &'a List<Line>,
    inflows: &mut List<Inflow>,
) -> Result<List<LineFault>, OutOfMemory>
    ensures inflows { OnOk result (inflows.new
        ≡ inflows.old ++ counted_of (context_of known.now) inflow_form lines.now) }
    ensures faults { IfOk result (λ faults. faults
        ≡ cut (gather (counted_fault (context_of known.now) inflow_form) [] lines.now)) }
{
    read_counted::<8, Inflows>(alloc, known, lines, inflows)
}
