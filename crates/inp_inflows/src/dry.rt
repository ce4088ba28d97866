// Dry weather flows: the section DWF.
ghost use Rattle.std.specs.Prelude.{◌≡◌, ◌++◌, [], option_to_list, IfOk, OnOk};
ghost use Rattle.inp_lines.specs.Faults.{cut};
ghost use Rattle.inp_lines.specs.Gather.{gather};
ghost use Rattle.inp_forms.specs.Context.{context_of};
ghost use Rattle.inp_inflows.specs.Counted.{counted_fault, counted_of};
ghost use Rattle.inp_inflows.specs.Inflows.{dry_form, dry_row, is_dry_section};

use crate::counted::{Counted, read_counted};
use inp_forms::{Form, Item, Known, Objects, Value, What, Words, amount, index, index_or_none};
use inp_lines::{Line, SectionName};
use inp_values::Quantity;
use net_types::{DryFlow, LineFault, List, OutOfMemory};
use std::alloc::Global;

/// The items of a dry weather flow: node, constituent, base, and up to four patterns.
pub(crate) const DRY_FLOW: [Item; 7] = [
    Item::Needed(What::Object(Objects::Nodes)),
    Item::Needed(What::Word(Words::Constituent)),
    Item::Needed(What::Number(Quantity::Raw)),
    Item::Or(Value::Nothing, What::Maybe(Objects::Patterns)),
    Item::Or(Value::Nothing, What::Maybe(Objects::Patterns)),
    Item::Or(Value::Nothing, What::Maybe(Objects::Patterns)),
    Item::Or(Value::Nothing, What::Maybe(Objects::Patterns)),
];

struct DryFlows;

impl Form<7> for DryFlows {
    type Record = DryFlow;

    ghost form = { dry_row };

    fn items() -> [Item; 7] {
        DRY_FLOW
    }

    fn make(alloc: Global, _: &Line, values: &[Value]) -> Result<DryFlow, OutOfMemory> {
        let mut patterns = List::new(alloc);
        add_pattern(index_or_none(values, 3), &mut patterns)?;
        add_pattern(index_or_none(values, 4), &mut patterns)?;
        add_pattern(index_or_none(values, 5), &mut patterns)?;
        add_pattern(index_or_none(values, 6), &mut patterns)?;
        Ok(DryFlow {
            node: index(values, 0),
            base6: amount(values, 2),
            patterns,
        })
    }
}

/// Appends a pattern, if there is one.
fn add_pattern(pattern: Option<u32>, patterns: &mut List<u32>) -> Result<(), OutOfMemory>
    ensures { OnOk result (patterns.new ≡ patterns.old ++ option_to_list pattern) }
{
    match pattern {
        None => Ok(()),
        Some(pattern) => {
            patterns.push(pattern)?;
            Ok(())
        }
    }
}

impl Counted<7> for DryFlows {
    ghost is_of = { is_dry_section };

    fn is_of(section: SectionName) -> bool {
        matches!(section, SectionName::Dwf)
    }
}

/// Reads the dry weather flows that lines give, appends them, and gives the first hundred faults of their lines (User's
/// Manual, section [DWF]).
pub fn read_dry<'a>(
    alloc: Global,
    known: &Known<'a>,
    lines: &'a List<Line>,
    dry: &mut List<DryFlow>,
) -> Result<List<LineFault>, OutOfMemory>
    ensures dry { OnOk result (dry.new ≡ dry.old ++ counted_of (context_of known.now) dry_form lines.now) }
    ensures faults { IfOk result (λ faults. faults
        ≡ cut (gather (counted_fault (context_of known.now) dry_form) [] lines.now)) }
{
    read_counted::<7, DryFlows>(alloc, known, lines, dry)
}
