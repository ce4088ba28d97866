// Weirs: the section WEIRS.
ghost use Rattle.std.specs.Prelude.{◌≡◌, IfOk};
ghost use Rattle.inp_network.specs.Links.{is_notch, weir_form};

use inp_forms::{Form, Item, Keyword, Objects, Value, What, Words, amount, choice, index, is_on};
use inp_lines::{Line, copy_token};
use inp_values::Quantity;
use net_types::{Link, LinkKind, OutOfMemory};
use std::alloc::Global;

/// The items of a weir: name, first and second node, type, offset of the crest, discharge coefficient, flap gate,
/// number of end contractions.
pub(crate) const WEIR: [Item; 8] = [
    Item::Needed(What::Name),
    Item::Needed(What::Object(Objects::Nodes)),
    Item::Needed(What::Object(Objects::Nodes)),
    Item::Needed(What::Word(Words::WeirType)),
    Item::Needed(What::Number(Quantity::Depth)),
    Item::Needed(What::WeirCoefficient),
    Item::Or(Value::Switch(false), What::YesNo),
    Item::Or(Value::Amount(0), What::Whole(0, 2)),
];

/// The lines of WEIRS.
pub(crate) struct Weirs;

impl Form<8> for Weirs {
    type Record = Link;

    ghost form = { weir_form };

    fn items() -> [Item; 8] {
        WEIR
    }

    fn make(alloc: Global, line: &Line, values: &[Value]) -> Result<Link, OutOfMemory> {
        Ok(Link {
            name: copy_token(alloc, line, 0)?,
            first: index(values, 1),
            second: index(values, 2),
            kind: LinkKind::Weir {
                notch: is_notch(choice(values, 3)),
                crest: amount(values, 4),
                cd6: amount(values, 5),
                flap: is_on(values, 6),
                contractions: amount(values, 7),
            },
            section: None,
        })
    }
}

/// Whether a weir is a V-notch.
fn is_notch(keyword: Option<Keyword>) -> bool
    ensures { result ≡ is_notch keyword }
{
    match keyword {
        Some(Keyword::VNotch) => true,
        _ => false,
    }
}
