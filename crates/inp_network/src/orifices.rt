// Orifices: the section ORIFICES.
ghost use Rattle.std.specs.Prelude.{◌≡◌, IfOk};
ghost use Rattle.inp_network.specs.Links.{is_bottom, orifice_form};

use inp_forms::{Form, Item, Keyword, Objects, Value, What, Words, amount, choice, index, is_on};
use inp_lines::{Line, copy_token};
use inp_values::Quantity;
use net_types::{Link, LinkKind, OutOfMemory};
use std::alloc::Global;

/// The items of an orifice: name, first and second node, SIDE or BOTTOM, offset, discharge coefficient, flap gate,
/// rate of opening, which is 0.
pub(crate) const ORIFICE: [Item; 8] = [
    Item::Needed(What::Name),
    Item::Needed(What::Object(Objects::Nodes)),
    Item::Needed(What::Object(Objects::Nodes)),
    Item::Needed(What::Word(Words::Opening)),
    Item::Needed(What::Number(Quantity::Depth)),
    Item::Needed(What::Number(Quantity::Coefficient)),
    Item::Or(Value::Switch(false), What::YesNo),
    Item::Or(Value::Amount(0), What::Only(0, Quantity::Raw)),
];

/// The lines of ORIFICES.
pub(crate) struct Orifices;

impl Form<8> for Orifices {
    type Record = Link;

    ghost form = { orifice_form };

    fn items() -> [Item; 8] {
        ORIFICE
    }

    fn make(alloc: Global, line: &Line, values: &[Value]) -> Result<Link, OutOfMemory> {
        Ok(Link {
            name: copy_token(alloc, line, 0)?,
            first: index(values, 1),
            second: index(values, 2),
            kind: LinkKind::Orifice {
                bottom: is_bottom(choice(values, 3)),
                offset: amount(values, 4),
                cd6: amount(values, 5),
                flap: is_on(values, 6),
            },
            section: None,
        })
    }
}

/// Whether an opening is in the bottom.
fn is_bottom(keyword: Option<Keyword>) -> bool
    ensures { result ≡ is_bottom keyword }
{
    match keyword {
        Some(Keyword::Bottom) => true,
        _ => false,
    }
}
