// Conduits: the section CONDUITS.
ghost use Rattle.std.specs.Prelude.{◌≡◌, IfOk};
ghost use Rattle.inp_network.specs.Links.{conduit_form};

use inp_forms::{Form, Item, Objects, Value, What, amount, index};
use inp_lines::{Line, copy_token};
use inp_values::Quantity;
use net_types::{Link, LinkKind, OutOfMemory};
use std::alloc::Global;

/// The items of a conduit: name, first and second node, length, roughness, offsets, initial flow, greatest flow. Its
/// losses and its flap gate stand in LOSSES.
pub(crate) const CONDUIT: [Item; 9] = [
    Item::Needed(What::Name),
    Item::Needed(What::Object(Objects::Nodes)),
    Item::Needed(What::Object(Objects::Nodes)),
    Item::Needed(What::Number(Quantity::ConduitLength)),
    Item::Needed(What::Number(Quantity::Roughness)),
    Item::Needed(What::Number(Quantity::Depth)),
    Item::Needed(What::Number(Quantity::Depth)),
    Item::Or(Value::Amount(0), What::Number(Quantity::Flow)),
    Item::Or(Value::Amount(0), What::AtLeast(0, Quantity::Flow)),
];

/// The lines of CONDUITS.
pub(crate) struct Conduits;

impl Form<9> for Conduits {
    type Record = Link;

    ghost form = { conduit_form };

    fn items() -> [Item; 9] {
        CONDUIT
    }

    fn make(alloc: Global, line: &Line, values: &[Value]) -> Result<Link, OutOfMemory> {
        Ok(Link {
            name: copy_token(alloc, line, 0)?,
            first: index(values, 1),
            second: index(values, 2),
            kind: LinkKind::Conduit {
                length: amount(values, 3),
                n6: amount(values, 4),
                z1: amount(values, 5),
                z2: amount(values, 6),
                q0: amount(values, 7),
                q_max: amount(values, 8),
                entry6: 0,
                exit6: 0,
                avg6: 0,
                flap: false,
            },
            section: None,
        })
    }
}
