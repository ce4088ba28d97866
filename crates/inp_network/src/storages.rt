// Storage units: the section STORAGE.
ghost use Rattle.std.specs.Prelude.{◌≡◌, option_map, IfOk};
ghost use Rattle.inp_forms.specs.Context.{context_of};
ghost use Rattle.inp_forms.specs.Forms.{row_name, row_reading};
ghost use Rattle.inp_network.specs.Nodes.{functional_form, storage_form, storage_from, tabular_form};

use crate::nodes::is_word_at;
use inp_forms::{
    Form, Item, Known, Objects, Value, What, Words, amount, index, name_row, read_row,
};
use inp_lines::{Line, Naming, Reading, copy_token};
use inp_values::Quantity;
use net_types::{Node, NodeKind, OutOfMemory, StoreShape};
use std::alloc::Global;

/// The items of a storage unit with a curve: name, invert elevation, greatest depth, initial depth, TABULAR, curve, two
/// numbers that aren't used.
pub(crate) const TABULAR_STORAGE: [Item; 9] = [
    Item::Needed(What::Name),
    Item::Needed(What::Number(Quantity::Elevation)),
    Item::Needed(What::Number(Quantity::Depth)),
    Item::Needed(What::Number(Quantity::Depth)),
    Item::Needed(What::Word(Words::StoreShape)),
    Item::Needed(What::Object(Objects::StorageCurves)),
    Item::Or(Value::Amount(0), What::Number(Quantity::Raw)),
    Item::Or(Value::Amount(0), What::Number(Quantity::Raw)),
    Item::Or(Value::Nothing, What::End),
];

/// The items of a storage unit whose area is a formula: name, invert elevation, greatest depth, initial depth,
/// FUNCTIONAL, coefficient, power, constant, two numbers that aren't used.
pub(crate) const FUNCTIONAL_STORAGE: [Item; 11] = [
    Item::Needed(What::Name),
    Item::Needed(What::Number(Quantity::Elevation)),
    Item::Needed(What::Number(Quantity::Depth)),
    Item::Needed(What::Number(Quantity::Depth)),
    Item::Needed(What::Word(Words::StoreShape)),
    Item::Needed(What::AtLeast(0, Quantity::Raw)),
    Item::Needed(What::Halves),
    Item::Needed(What::AtLeast(0, Quantity::Raw)),
    Item::Or(Value::Amount(0), What::Number(Quantity::Raw)),
    Item::Or(Value::Amount(0), What::Number(Quantity::Raw)),
    Item::Or(Value::Nothing, What::End),
];

struct TabularStorages;

impl Form<9> for TabularStorages {
    type Record = Node;

    ghost form = { tabular_form };

    fn items() -> [Item; 9] {
        TABULAR_STORAGE
    }

    fn make(alloc: Global, line: &Line, values: &[Value]) -> Result<Node, OutOfMemory> {
        make_storage(alloc, line, values, StoreShape::Tabular(index(values, 5)))
    }
}

struct FunctionalStorages;

impl Form<11> for FunctionalStorages {
    type Record = Node;

    ghost form = { functional_form };

    fn items() -> [Item; 11] {
        FUNCTIONAL_STORAGE
    }

    fn make(alloc: Global, line: &Line, values: &[Value]) -> Result<Node, OutOfMemory> {
        let shape = StoreShape::Functional {
            a1: amount(values, 5),
            halves: index(values, 6),
            a0: amount(values, 7),
        };
        make_storage(alloc, line, values, shape)
    }
}

/// A storage unit of a shape.
fn make_storage(
    alloc: Global,
    line: &Line,
    values: &[Value],
    shape: StoreShape,
) -> Result<Node, OutOfMemory>
    ensures { IfOk result (λ made. made ≡ storage_from line.now.tokens values.now shape) }
{
    Ok(Node {
        name: copy_token(alloc, line, 0)?,
        invert: amount(values, 1),
        y_max: amount(values, 2),
        y0: amount(values, 3),
        kind: NodeKind::Storage { shape },
    })
}

/// Reads a line of STORAGE by the form of its area.
#[tactic(auto, unfolding(crate::specs::Nodes::storage_form))]
pub(crate) fn read_storage<'a>(
    alloc: Global,
    known: &Known<'a>,
    naming: Naming,
    line: &'a Line,
) -> Result<Reading<Node>, OutOfMemory>
    ensures { IfOk result (λ reading. reading ≡ row_reading (context_of known.now) naming
        (storage_form line.now.tokens) line.now) }
{
    if is_word_at(line, 4, b"FUNCTIONAL") {
        return read_row::<11, FunctionalStorages>(alloc, known, naming, line);
    }
    read_row::<9, TabularStorages>(alloc, known, naming, line)
}

/// The name that a line of STORAGE defines.
#[tactic(auto, unfolding(crate::specs::Nodes::storage_form))]
pub(crate) fn name_storage(line: &Line) -> Option<&[u8]>
    ensures { option_map (λ name. name.now) result ≡ row_name (storage_form line.now.tokens) line.now }
{
    if is_word_at(line, 4, b"FUNCTIONAL") {
        return name_row::<11, FunctionalStorages>(line);
    }
    name_row::<9, TabularStorages>(line)
}
