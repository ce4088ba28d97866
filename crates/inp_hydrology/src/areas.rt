// Subareas: the section SUBAREAS.
ghost use Rattle.std.specs.Prelude.{◌≡◌, ◌++◌, [], option_map, IfOk, OnOk};
ghost use Rattle.inp_lines.specs.Faults.{cut};
ghost use Rattle.inp_lines.specs.Gather.{gather};
ghost use Rattle.inp_forms.specs.Context.{context_of};
ghost use Rattle.inp_forms.specs.Forms.{form_name, form_reading};
ghost use Rattle.inp_hydrology.specs.Areas.{area_form, area_forms, area_name, areas_fault, areas_of, sub_of_areas};
ghost use Rattle.inp_hydrology.specs.Areas.{with_areas, with_own_areas};

use inp_forms::{
    Form, Item, Keyword, Known, Objects, Value, What, Words, amount, index, name_row, read_row,
};
use inp_lines::{Kind, Line, Naming, Reading, RecordKind, SectionName, read_kind};
use inp_owners::{Owned, owner_name, place_owned};
use inp_values::Quantity;
use net_types::{LineFault, List, OutOfMemory, Sub, SubAreas};
use std::alloc::Global;

/// The items of subareas: subcatchment, roughness of the impervious and of the pervious part, their depression
/// storages, the part without storage, OUTLET, a percentage that isn't used.
pub(crate) const AREAS: [Item; 8] = [
    Item::Needed(What::Own(Objects::Subcatchments)),
    Item::Needed(What::Number(Quantity::Roughness)),
    Item::Needed(What::Number(Quantity::Roughness)),
    Item::Needed(What::Number(Quantity::SmallDepth)),
    Item::Needed(What::Number(Quantity::SmallDepth)),
    Item::Needed(What::Number(Quantity::Percent)),
    Item::Or(Value::Choice(Keyword::Outlet), What::Word(Words::Route)),
    Item::Or(Value::Amount(0), What::Number(Quantity::Raw)),
];

/// Subareas, and the number of the subcatchment that has them.
#[derive(Clone, Copy, Debug, PartialEq, Eq)]
pub struct OwnAreas {
    pub sub: u32,
    pub areas: SubAreas,
}

/// The lines of SUBAREAS.
struct AreaRows;

impl Form<8> for AreaRows {
    type Record = OwnAreas;

    ghost form = { area_form };

    fn items() -> [Item; 8] {
        AREAS
    }

    fn make(_alloc: Global, _line: &Line, values: &[Value]) -> Result<OwnAreas, OutOfMemory> {
        Ok(OwnAreas {
            sub: index(values, 0),
            areas: SubAreas {
                n_imperv6: amount(values, 1),
                n_perv6: amount(values, 2),
                s_imperv: amount(values, 3),
                s_perv: amount(values, 4),
                zero6: amount(values, 5),
            },
        })
    }
}

/// Subareas, read by what is known of the whole input.
#[derive(Clone, Copy)]
struct Areas<'a, 'n> {
    known: &'n Known<'a>,
}

impl<'a, 'n> Kind<'a> for Areas<'a, 'n> {
    ghost name_of = { λ areas. area_name (context_of areas.known.now) };

    fn name(&self, line: &'a Line) -> Option<&'a [u8]> {
        owner_name(self.known, Objects::Subcatchments, name_of_areas(line))
    }
}

impl<'a, 'n> RecordKind<'a> for Areas<'a, 'n> {
    type Record = OwnAreas;

    ghost reading_of = { λ areas. form_reading (context_of areas.known.now) area_forms };

    fn read(
        &self,
        alloc: Global,
        line: &'a Line,
        naming: Naming,
    ) -> Result<Reading<OwnAreas>, OutOfMemory> {
        match line.section {
            SectionName::SubAreas => read_row::<8, AreaRows>(alloc, self.known, naming, line),
            _ => Ok(Reading::Other),
        }
    }
}

/// The name that a line of subareas begins with.
fn name_of_areas(line: &Line) -> Option<&[u8]>
    ensures { option_map (λ name. name.now) result ≡ form_name area_forms line.now }
{
    match line.section {
        SectionName::SubAreas => name_row::<8, AreaRows>(line),
        _ => None,
    }
}

/// Reads the subareas that lines give, appends them, and gives the first hundred faults of their lines (User's Manual,
/// section [SUBAREAS]).
#[tactic(auto, unfolding(inp_owners::specs::Owners::owned_of))]
pub fn read_areas<'a>(
    alloc: Global,
    known: &Known<'a>,
    lines: &'a List<Line>,
    areas: &mut List<OwnAreas>,
) -> Result<List<LineFault>, OutOfMemory>
    ensures areas { OnOk result (areas.new ≡ areas.old ++ areas_of (context_of known.now) lines.now) }
    ensures faults { IfOk result (λ faults. faults ≡ cut (gather (areas_fault (context_of known.now)) [] lines.now)) }
{
    read_kind(alloc, &Areas { known }, lines, areas)
}

impl Owned for OwnAreas {
    type Object = Sub;

    ghost number_of = { sub_of_areas };

    ghost changed = { with_own_areas };

    fn number(&self) -> u32 {
        self.sub
    }

    fn change(&self, sub: &mut Sub) {
        sub.sub_areas = Some(self.areas);
    }
}

/// Gives subcatchments their subareas.
#[tactic(auto, unfolding(crate::specs::Areas::with_areas))]
pub fn place_areas(subs: &mut List<Sub>, areas: &List<OwnAreas>)
    ensures { subs.new ≡ with_areas areas.now subs.old }
{
    place_owned(subs, areas);
}
