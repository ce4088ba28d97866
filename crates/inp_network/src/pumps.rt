// Pumps: the section PUMPS.
ghost use Rattle.std.specs.Prelude.{◌≡◌, IfOk};
ghost use Rattle.inp_network.specs.Links.{pump_form};

use inp_forms::{Form, Item, Keyword, Objects, Value, What, Words, amount, index, is_on};
use inp_lines::{Line, copy_token};
use inp_values::Quantity;
use net_types::{Link, LinkKind, OutOfMemory};
use std::alloc::Global;

/// The items of a pump: name, first and second node, curve, status, depths for start and stop.
pub(crate) const PUMP: [Item; 7] = [
    Item::Needed(What::Name),
    Item::Needed(What::Object(Objects::Nodes)),
    Item::Needed(What::Object(Objects::Nodes)),
    Item::Needed(What::PumpCurve),
    Item::Or(Value::Choice(Keyword::On), What::Word(Words::Status)),
    Item::Or(Value::Amount(0), What::Number(Quantity::Depth)),
    Item::Or(Value::Amount(0), What::Number(Quantity::Depth)),
];

/// The lines of PUMPS.
pub(crate) struct Pumps;

impl Form<7> for Pumps {
    type Record = Link;

    ghost form = { pump_form };

    fn items() -> [Item; 7] {
        PUMP
    }

    fn make(alloc: Global, line: &Line, values: &[Value]) -> Result<Link, OutOfMemory> {
        Ok(Link {
            name: copy_token(alloc, line, 0)?,
            first: index(values, 1),
            second: index(values, 2),
            kind: LinkKind::Pump {
                curve: index(values, 3),
                on: is_on(values, 4),
                startup: amount(values, 5),
                shutoff: amount(values, 6),
            },
            section: None,
        })
    }
}
