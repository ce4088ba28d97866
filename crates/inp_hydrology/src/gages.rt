// Rain gages: the section RAINGAGES.
ghost use Rattle.std.specs.Prelude.{◌≡◌, ◌++◌, [], option_map, IfOk, OnOk};
ghost use Rattle.inp_lines.specs.Faults.{cut};
ghost use Rattle.inp_lines.specs.Gather.{gather};
ghost use Rattle.inp_lines.specs.Names.{number_in};
ghost use Rattle.inp_lines.specs.Numbers.{numbers_of};
ghost use Rattle.inp_forms.specs.Context.{context_of};
ghost use Rattle.inp_forms.specs.Forms.{form_reading};
ghost use Rattle.inp_hydrology.specs.Gages.{gage_fault, gage_form, gage_forms, gage_name, gage_names, gages_of};
ghost use Rattle.inp_hydrology.specs.Gages.{is_volume};

use inp_forms::{
    Form, Item, Keyword, Known, Objects, Value, What, Words, amount, choice, index, name_row,
    read_row,
};
use inp_lines::{
    Kind, Line, Names, Naming, Reading, RecordKind, SectionName, copy_token, number_names,
    read_kind,
};
use inp_values::Quantity;
use net_types::{Gage, LineFault, List, OutOfMemory};
use std::alloc::Global;

/// The items of a rain gage: name, INTENSITY or VOLUME, interval of a minute to a day, a number that isn't used,
/// TIMESERIES, series.
pub(crate) const GAGE: [Item; 6] = [
    Item::Needed(What::Name),
    Item::Needed(What::Word(Words::RainForm)),
    Item::Needed(What::Hours(60_000, 86_400_000)),
    Item::Needed(What::Number(Quantity::Raw)),
    Item::Needed(What::Word(Words::RainSource)),
    Item::Needed(What::Object(Objects::Series)),
];

/// The lines of RAINGAGES.
struct GageRows;

impl Form<6> for GageRows {
    type Record = Gage;

    ghost form = { gage_form };

    fn items() -> [Item; 6] {
        GAGE
    }

    fn make(alloc: Global, line: &Line, values: &[Value]) -> Result<Gage, OutOfMemory> {
        Ok(Gage {
            name: copy_token(alloc, line, 0)?,
            volume: is_volume(choice(values, 1)),
            interval: amount(values, 2),
            series: index(values, 5),
        })
    }
}

/// Whether values are volumes.
fn is_volume(keyword: Option<Keyword>) -> bool
    ensures { result ≡ is_volume keyword }
{
    match keyword {
        Some(Keyword::Volume) => true,
        _ => false,
    }
}

/// The names of rain gages.
#[derive(Clone, Copy, Debug)]
struct GageNames;

impl<'a> Kind<'a> for GageNames {
    ghost name_of = { λ _. gage_name };

    fn name(&self, line: &'a Line) -> Option<&'a [u8]> {
        name_of_gage(line)
    }
}

/// Rain gages, read by what is known of the whole input.
#[derive(Clone, Copy)]
struct Gages<'a, 'n> {
    known: &'n Known<'a>,
}

impl<'a, 'n> Kind<'a> for Gages<'a, 'n> {
    ghost name_of = { λ _. gage_name };

    fn name(&self, line: &'a Line) -> Option<&'a [u8]> {
        name_of_gage(line)
    }
}

impl<'a, 'n> RecordKind<'a> for Gages<'a, 'n> {
    type Record = Gage;

    ghost reading_of = { λ gages. form_reading (context_of gages.known.now) gage_forms };

    fn read(
        &self,
        alloc: Global,
        line: &'a Line,
        naming: Naming,
    ) -> Result<Reading<Gage>, OutOfMemory> {
        match line.section {
            SectionName::RainGages => read_row::<6, GageRows>(alloc, self.known, naming, line),
            _ => Ok(Reading::Other),
        }
    }
}

/// The name that a line defines for a rain gage.
fn name_of_gage(line: &Line) -> Option<&[u8]>
    ensures { option_map (λ name. name.now) result ≡ gage_name line.now }
{
    match line.section {
        SectionName::RainGages => name_row::<6, GageRows>(line),
        _ => None,
    }
}

/// Numbers the rain gages that lines define by their names, from 0 in the order of their lines.
pub fn number_gages<'a>(alloc: Global, lines: &'a List<Line>) -> Result<Names<'a>, OutOfMemory>
    ensures { IfOk result (λ names. numbers_of names ≡ number_in (gage_names lines.now)) }
{
    number_names(alloc, &GageNames, lines)
}

/// Reads the rain gages that lines give, appends them, and gives the first hundred faults of their lines (User's
/// Manual, section [RAINGAGES]).
#[tactic(auto, unfolding(crate::specs::Gages::gages_of))]
pub fn read_gages<'a>(
    alloc: Global,
    known: &Known<'a>,
    lines: &'a List<Line>,
    gages: &mut List<Gage>,
) -> Result<List<LineFault>, OutOfMemory>
    ensures gages { OnOk result (gages.new ≡ gages.old ++ gages_of (context_of known.now) lines.now) }
    ensures faults { IfOk result (λ faults. faults ≡ cut (gather (gage_fault (context_of known.now)) [] lines.now)) }
{
    read_kind(alloc, &Gages { known }, lines, gages)
}
