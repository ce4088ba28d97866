// Subcatchments: the section SUBCATCHMENTS.
ghost use Rattle.std.specs.Prelude.{◌≡◌, ◌++◌, [], option_map, IfOk, OnOk};
ghost use Rattle.inp_lines.specs.Faults.{cut};
ghost use Rattle.inp_lines.specs.Gather.{gather};
ghost use Rattle.inp_lines.specs.Names.{number_in};
ghost use Rattle.inp_lines.specs.Numbers.{numbers_of};
ghost use Rattle.inp_forms.specs.Context.{context_of};
ghost use Rattle.inp_forms.specs.Forms.{form_reading};
ghost use Rattle.inp_hydrology.specs.Subcatchments.{sub_fault, sub_form, sub_forms, sub_name, sub_names, subs_of};

use inp_forms::{Form, Item, Known, Objects, Value, What, amount, index, name_row, read_row};
use inp_lines::{
    Kind, Line, Names, Naming, Reading, RecordKind, SectionName, copy_token, number_names,
    read_kind,
};
use inp_values::Quantity;
use net_types::{LineFault, List, OutOfMemory, Sub};
use std::alloc::Global;

/// The items of a subcatchment: name, rain gage, outlet node, area, impervious part, width, slope, a number that isn't
/// used.
pub(crate) const SUBCATCHMENT: [Item; 9] = [
    Item::Needed(What::Name),
    Item::Needed(What::Object(Objects::Gages)),
    Item::Needed(What::Outlet),
    Item::Needed(What::Number(Quantity::LandArea)),
    Item::Needed(What::Number(Quantity::Percent)),
    Item::Needed(What::Number(Quantity::Width)),
    Item::Needed(What::Number(Quantity::Percent)),
    Item::Needed(What::Number(Quantity::Raw)),
    Item::Or(Value::Nothing, What::End),
];

/// The lines of SUBCATCHMENTS.
struct SubRows;

impl Form<9> for SubRows {
    type Record = Sub;

    ghost form = { sub_form };

    fn items() -> [Item; 9] {
        SUBCATCHMENT
    }

    fn make(alloc: Global, line: &Line, values: &[Value]) -> Result<Sub, OutOfMemory> {
        Ok(Sub {
            name: copy_token(alloc, line, 0)?,
            gage: index(values, 1),
            outlet: index(values, 2),
            area: amount(values, 3),
            imperv6: amount(values, 4),
            width: amount(values, 5),
            slope6: amount(values, 6),
            sub_areas: None,
            infil: None,
        })
    }
}

/// The names of subcatchments.
#[derive(Clone, Copy, Debug)]
struct SubNames;

impl<'a> Kind<'a> for SubNames {
    ghost name_of = { λ _. sub_name };

    fn name(&self, line: &'a Line) -> Option<&'a [u8]> {
        name_of_sub(line)
    }
}

/// Subcatchments, read by what is known of the whole input.
#[derive(Clone, Copy)]
struct Subs<'a, 'n> {
    known: &'n Known<'a>,
}

impl<'a, 'n> Kind<'a> for Subs<'a, 'n> {
    ghost name_of = { λ _. sub_name };

    fn name(&self, line: &'a Line) -> Option<&'a [u8]> {
        name_of_sub(line)
    }
}

impl<'a, 'n> RecordKind<'a> for Subs<'a, 'n> {
    type Record = Sub;

    ghost reading_of = { λ subs. form_reading (context_of subs.known.now) sub_forms };

    fn read(
        &self,
        alloc: Global,
        line: &'a Line,
        naming: Naming,
    ) -> Result<Reading<Sub>, OutOfMemory> {
        match line.section {
            SectionName::Subcatchments => read_row::<9, SubRows>(alloc, self.known, naming, line),
            _ => Ok(Reading::Other),
        }
    }
}

/// The name that a line defines for a subcatchment.
fn name_of_sub(line: &Line) -> Option<&[u8]>
    ensures { option_map (λ name. name.now) result ≡ sub_name line.now }
{
    match line.section {
        SectionName::Subcatchments => name_row::<9, SubRows>(line),
        _ => None,
    }
}

/// Numbers the subcatchments that lines define by their names, from 0 in the order of their lines.
pub fn number_subs<'a>(alloc: Global, lines: &'a List<Line>) -> Result<Names<'a>, OutOfMemory>
    ensures { IfOk result (λ names. numbers_of names ≡ number_in (sub_names lines.now)) }
{
    number_names(alloc, &SubNames, lines)
}

/// Reads the subcatchments that lines give, appends them, and gives the first hundred faults of their lines (User's
/// Manual, section [SUBCATCHMENTS]).
#[tactic(auto, unfolding(crate::specs::Subcatchments::subs_of))]
pub fn read_subs<'a>(
    alloc: Global,
    known: &Known<'a>,
    lines: &'a List<Line>,
    subs: &mut List<Sub>,
) -> Result<List<LineFault>, OutOfMemory>
    ensures subs { OnOk result (subs.new ≡ subs.old ++ subs_of (context_of known.now) lines.now) }
    ensures faults { IfOk result (λ faults. faults ≡ cut (gather (sub_fault (context_of known.now)) [] lines.now)) }
{
    read_kind(alloc, &Subs { known }, lines, subs)
}
