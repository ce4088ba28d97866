// Losses of conduits: the section LOSSES.
ghost use Rattle.std.specs.Prelude.{◌≡◌, ◌++◌, [], option_map, IfOk, OnOk};
ghost use Rattle.inp_lines.specs.Faults.{cut};
ghost use Rattle.inp_lines.specs.Gather.{gather};
ghost use Rattle.inp_forms.specs.Context.{context_of};
ghost use Rattle.inp_forms.specs.Forms.{form_name, form_reading};
ghost use Rattle.inp_sections.specs.Losses.{kind_with_losses, link_of_losses, loss_form, loss_forms, loss_name};
ghost use Rattle.inp_sections.specs.Losses.{losses_fault, losses_of, with_losses, with_own_losses};

use inp_forms::{
    Form, Item, Known, Objects, Value, What, amount, index, is_on, name_row, read_row,
};
use inp_lines::{Kind, Line, Naming, Reading, RecordKind, SectionName, read_kind};
use inp_owners::{Owned, owner_name, place_owned};
use inp_values::Quantity;
use net_types::{LineFault, Link, LinkKind, List, OutOfMemory};
use std::alloc::Global;

/// The items of the losses of a conduit: conduit, coefficients of its entry, its exit and its length, flap gate.
pub(crate) const LOSSES: [Item; 5] = [
    Item::Needed(What::Own(Objects::Conduits)),
    Item::Needed(What::Number(Quantity::Coefficient)),
    Item::Needed(What::Number(Quantity::Coefficient)),
    Item::Needed(What::Number(Quantity::Coefficient)),
    Item::Or(Value::Switch(false), What::YesNo),
];

/// The losses of a conduit, in millionths, and its flap gate, with the number of the link.
#[derive(Clone, Copy, Debug, PartialEq, Eq)]
pub struct OwnLosses {
    pub link: u32,
    pub entry6: i64,
    pub exit6: i64,
    pub avg6: i64,
    pub flap: bool,
}

/// The lines of LOSSES.
struct LossRows;

impl Form<5> for LossRows {
    type Record = OwnLosses;

    ghost form = { loss_form };

    fn items() -> [Item; 5] {
        LOSSES
    }

    fn make(_alloc: Global, _line: &Line, values: &[Value]) -> Result<OwnLosses, OutOfMemory> {
        Ok(OwnLosses {
            link: index(values, 0),
            entry6: amount(values, 1),
            exit6: amount(values, 2),
            avg6: amount(values, 3),
            flap: is_on(values, 4),
        })
    }
}

/// Losses, read by what is known of the whole input.
#[derive(Clone, Copy)]
struct Losses<'a, 'n> {
    known: &'n Known<'a>,
}

impl<'a, 'n> Kind<'a> for Losses<'a, 'n> {
    ghost name_of = { λ losses. loss_name (context_of losses.known.now) };

    fn name(&self, line: &'a Line) -> Option<&'a [u8]> {
        owner_name(self.known, Objects::Conduits, name_of_losses(line))
    }
}

impl<'a, 'n> RecordKind<'a> for Losses<'a, 'n> {
    type Record = OwnLosses;

    ghost reading_of = { λ losses. form_reading (context_of losses.known.now) loss_forms };

    fn read(
        &self,
        alloc: Global,
        line: &'a Line,
        naming: Naming,
    ) -> Result<Reading<OwnLosses>, OutOfMemory> {
        match line.section {
            SectionName::Losses => read_row::<5, LossRows>(alloc, self.known, naming, line),
            _ => Ok(Reading::Other),
        }
    }
}

/// The name that a line of losses begins with.
fn name_of_losses(line: &Line) -> Option<&[u8]>
    ensures { option_map (λ name. name.now) result ≡ form_name loss_forms line.now }
{
    match line.section {
        SectionName::Losses => name_row::<5, LossRows>(line),
        _ => None,
    }
}

/// Reads the losses that lines give, appends them, and gives the first hundred faults of their lines (User's Manual,
/// section [LOSSES]).
#[tactic(auto, unfolding(inp_owners::specs::Owners::owned_of))]
pub fn read_losses<'a>(
    alloc: Global,
    known: &Known<'a>,
    lines: &'a List<Line>,
    losses: &mut List<OwnLosses>,
) -> Result<List<LineFault>, OutOfMemory>
    ensures losses { OnOk result (losses.new ≡ losses.old ++ losses_of (context_of known.now) lines.now) }
    ensures faults { IfOk result (λ faults. faults ≡ cut (gather (losses_fault (context_of known.now)) [] lines.now)) }
{
    read_kind(alloc, &Losses { known }, lines, losses)
}

impl Owned for OwnLosses {
    type Object = Link;

    ghost number_of = { link_of_losses };

    ghost changed = { with_own_losses };

    fn number(&self) -> u32 {
        self.link
    }

    fn change(&self, link: &mut Link) {
        link.kind = kind_with_losses(self, link.kind);
    }
}

/// What a conduit is with its losses and its flap gate; other links have none.
fn kind_with_losses(own: &OwnLosses, kind: LinkKind) -> LinkKind
    ensures { result ≡ kind_with_losses own.now kind }
{
    match kind {
        LinkKind::Conduit {
            length,
            n6,
            z1,
            z2,
            q0,
            q_max,
            ..
        } => LinkKind::Conduit {
            length,
            n6,
            z1,
            z2,
            q0,
            q_max,
            entry6: own.entry6,
            exit6: own.exit6,
            avg6: own.avg6,
            flap: own.flap,
        },
        _ => kind,
    }
}

/// Gives conduits their losses.
#[tactic(auto, unfolding(crate::specs::Losses::with_losses))]
pub fn place_losses(links: &mut List<Link>, losses: &List<OwnLosses>)
    ensures { links.new ≡ with_losses losses.now links.old }
{
    place_owned(links, losses);
}
