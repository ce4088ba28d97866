// Junctions: the section JUNCTIONS.
ghost use Rattle.std.specs.Prelude.{◌≡◌, IfOk};
ghost use Rattle.inp_network.specs.Nodes.{junction_form};

use inp_forms::{Form, Item, Value, What, amount};
use inp_lines::{Line, copy_token};
use inp_values::Quantity;
use net_types::{Node, NodeKind, OutOfMemory};
use std::alloc::Global;

/// The items of a junction: name, invert elevation, greatest depth, initial depth, surcharge depth, ponded area.
pub(crate) const JUNCTION: [Item; 6] = [
    Item::Needed(What::Name),
    Item::Needed(What::Number(Quantity::Elevation)),
    Item::Or(Value::Amount(0), What::Number(Quantity::Depth)),
    Item::Or(Value::Amount(0), What::Number(Quantity::Depth)),
    Item::Or(Value::Amount(0), What::Number(Quantity::Depth)),
    Item::Or(Value::Amount(0), What::Number(Quantity::NodeArea)),
];

/// The lines of JUNCTIONS.
pub(crate) struct Junctions;

impl Form<6> for Junctions {
    type Record = Node;

    ghost form = { junction_form };

    fn items() -> [Item; 6] {
        JUNCTION
    }

    fn make(alloc: Global, line: &Line, values: &[Value]) -> Result<Node, OutOfMemory> {
        Ok(Node {
            name: copy_token(alloc, line, 0)?,
            invert: amount(values, 1),
            y_max: amount(values, 2),
            y0: amount(values, 3),
            kind: NodeKind::Junction {
                surcharge: amount(values, 4),
                pond: amount(values, 5),
            },
        })
    }
}
