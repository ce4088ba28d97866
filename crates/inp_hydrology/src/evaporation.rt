// Evaporation: the section EVAPORATION, in which nothing but a constant of 0 is in this profile.
ghost use Rattle.std.specs.Prelude.{◌≡◌, [], option_map, IfOk};
ghost use Rattle.inp_lines.specs.Faults.{cut};
ghost use Rattle.inp_lines.specs.Gather.{gather};
ghost use Rattle.inp_forms.specs.Context.{context_of};
ghost use Rattle.inp_forms.specs.Forms.{form_reading, row_reading};
ghost use Rattle.inp_hydrology.specs.Evaporation.{constant_form, dry_only_form, evaporation_fault, evaporation_form};
ghost use Rattle.inp_hydrology.specs.Evaporation.{evaporation_forms, is_dry_only, no_name};

use inp_forms::{Form, Item, Known, Value, What, Words, read_row};
use inp_lines::{Kind, Line, Naming, Reading, RecordKind, SectionName, read_kind};
use inp_values::{Quantity, is_word};
use net_types::{LineFault, List, OutOfMemory, Text};
use std::alloc::Global;

/// The items of a constant evaporation, which has to be 0.
pub(crate) const CONSTANT: [Item; 2] = [
    Item::Needed(What::Word(Words::Evaporation)),
    Item::Needed(What::Only(0, Quantity::Raw)),
];

/// The items of the times of evaporation, which have no effect.
pub(crate) const DRY_ONLY: [Item; 2] = [
    Item::Needed(What::Word(Words::Evaporation)),
    Item::Needed(What::Unused),
];

/// The lines of EVAPORATION that give its amount. A line gives no record of its own but that it is there.
struct ConstantRows;

impl Form<2> for ConstantRows {
    type Record = bool;

    ghost form = { constant_form };

    fn items() -> [Item; 2] {
        CONSTANT
    }

    fn make(_alloc: Global, _line: &Line, _values: &[Value]) -> Result<bool, OutOfMemory> {
        Ok(true)
    }
}

/// The lines of EVAPORATION that give its times.
struct DryOnlyRows;

impl Form<2> for DryOnlyRows {
    type Record = bool;

    ghost form = { dry_only_form };

    fn items() -> [Item; 2] {
        DRY_ONLY
    }

    fn make(_alloc: Global, _line: &Line, _values: &[Value]) -> Result<bool, OutOfMemory> {
        Ok(true)
    }
}

/// Evaporation, read by what is known of the whole input.
#[derive(Clone, Copy)]
struct Evaporation<'a, 'n> {
    known: &'n Known<'a>,
}

impl<'a, 'n> Kind<'a> for Evaporation<'a, 'n> {
    ghost name_of = { λ _. no_name };

    fn name(&self, _line: &'a Line) -> Option<&'a [u8]> {
        None
    }
}

impl<'a, 'n> RecordKind<'a> for Evaporation<'a, 'n> {
    type Record = bool;

    ghost reading_of = { λ evaporation. form_reading (context_of evaporation.known.now) evaporation_forms };

    fn read(
        &self,
        alloc: Global,
        line: &'a Line,
        naming: Naming,
    ) -> Result<Reading<bool>, OutOfMemory> {
        match line.section {
            SectionName::Evaporation => read_line(alloc, self.known, naming, line),
            _ => Ok(Reading::Other),
        }
    }
}

/// Reads a line of EVAPORATION.
#[tactic(auto, unfolding(crate::specs::Evaporation::evaporation_form))]
fn read_line<'a>(
    alloc: Global,
    known: &Known<'a>,
    naming: Naming,
    line: &'a Line,
) -> Result<Reading<bool>, OutOfMemory>
    ensures { IfOk result (λ reading.
        reading ≡ row_reading (context_of known.now) naming (evaporation_form line.now.tokens) line.now) }
{
    if is_dry_only(line.tokens.as_slice()) {
        return read_row::<2, DryOnlyRows>(alloc, known, naming, line);
    }
    read_row::<2, ConstantRows>(alloc, known, naming, line)
}

/// Whether a line begins with DRY_ONLY.
fn is_dry_only(tokens: &[Text]) -> bool
    ensures { result ≡ is_dry_only tokens.now }
{
    match tokens.get(0) {
        Some(token) => is_word(token.as_slice(), b"DRY_ONLY"),
        None => is_word(&[], b"DRY_ONLY"),
    }
}

/// The first hundred faults of lines of EVAPORATION (User's Manual, section [EVAPORATION]).
pub fn read_evaporation<'a>(
    alloc: Global,
    known: &Known<'a>,
    lines: &'a List<Line>,
) -> Result<List<LineFault>, OutOfMemory>
    ensures { IfOk result (λ faults.
        faults ≡ cut (gather (evaporation_fault (context_of known.now)) [] lines.now)) }
{
    let mut lines_read = List::new(alloc);
    let faults = read_kind(alloc, &Evaporation { known }, lines, &mut lines_read)?;
    Ok(faults)
}
