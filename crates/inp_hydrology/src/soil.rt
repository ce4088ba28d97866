// The soil of subcatchments: the section INFILTRATION.
ghost use Rattle.std.specs.Prelude.{◌≡◌, ◌++◌, [], option_map, IfOk, OnOk};
ghost use Rattle.inp_lines.specs.Faults.{cut};
ghost use Rattle.inp_lines.specs.Gather.{gather};
ghost use Rattle.inp_forms.specs.Context.{context_of};
ghost use Rattle.inp_forms.specs.Forms.{form_name, form_reading, row_name, row_reading};
ghost use Rattle.inp_hydrology.specs.Soil.{horton_form, infil_form, number_form, soil_fault, soil_forms, soil_name};
ghost use Rattle.inp_hydrology.specs.Soil.{soil_of, sub_of_infil, with_infil, with_own_infil};

use inp_forms::{Form, Item, Known, Objects, Value, What, amount, index, name_row, read_row};
use inp_lines::{Kind, Line, Naming, Reading, RecordKind, SectionName, read_kind};
use inp_owners::{Owned, owner_name, place_owned};
use inp_values::Quantity;
use net_types::{Infil, InfilKind, LineFault, List, OutOfMemory, Sub};
use std::alloc::Global;

/// The items of the modified Horton method: subcatchment, greatest and least rate, decay, drying time, greatest volume.
pub(crate) const HORTON: [Item; 6] = [
    Item::Needed(What::Own(Objects::Subcatchments)),
    Item::Needed(What::Number(Quantity::Rate)),
    Item::Needed(What::Number(Quantity::Rate)),
    Item::Needed(What::Number(Quantity::Coefficient)),
    Item::Needed(What::AtLeast(86_400, Quantity::Days)),
    Item::Needed(What::Number(Quantity::SmallDepth)),
];

/// The items of the curve number method: subcatchment, curve number of 1 to 100, a number that isn't used, drying time.
pub(crate) const CURVE_NUMBER: [Item; 4] = [
    Item::Needed(What::Own(Objects::Subcatchments)),
    Item::Needed(What::AtLeast(1_000_000, Quantity::Coefficient)),
    Item::Needed(What::Number(Quantity::Raw)),
    Item::Needed(What::AtLeast(86_400, Quantity::Days)),
];

/// The infiltration numbers of a subcatchment, and its number.
#[derive(Clone, Copy, Debug, PartialEq, Eq)]
pub struct OwnInfil {
    pub sub: u32,
    pub infil: Infil,
}

/// The lines of INFILTRATION by the modified Horton method.
struct HortonRows;

impl Form<6> for HortonRows {
    type Record = OwnInfil;

    ghost form = { horton_form };

    fn items() -> [Item; 6] {
        HORTON
    }

    fn make(_alloc: Global, _line: &Line, values: &[Value]) -> Result<OwnInfil, OutOfMemory> {
        Ok(OwnInfil {
            sub: index(values, 0),
            infil: Infil::Horton {
                max: amount(values, 1),
                min: amount(values, 2),
                decay6: amount(values, 3),
                dry: amount(values, 4),
                volume: amount(values, 5),
            },
        })
    }
}

/// The lines of INFILTRATION by curve numbers.
struct NumberRows;

impl Form<4> for NumberRows {
    type Record = OwnInfil;

    ghost form = { number_form };

    fn items() -> [Item; 4] {
        CURVE_NUMBER
    }

    fn make(_alloc: Global, _line: &Line, values: &[Value]) -> Result<OwnInfil, OutOfMemory> {
        Ok(OwnInfil {
            sub: index(values, 0),
            infil: Infil::Number {
                cn6: amount(values, 1),
                dry: amount(values, 3),
            },
        })
    }
}

/// Infiltration numbers of a method, read by what is known of the whole input.
#[derive(Clone, Copy)]
struct Soil<'a, 'n> {
    method: InfilKind,
    known: &'n Known<'a>,
}

impl<'a, 'n> Kind<'a> for Soil<'a, 'n> {
    ghost name_of = { λ soil. soil_name soil.method (context_of soil.known.now) };

    fn name(&self, line: &'a Line) -> Option<&'a [u8]> {
        owner_name(
            self.known,
            Objects::Subcatchments,
            name_of_soil(self.method, line),
        )
    }
}

impl<'a, 'n> RecordKind<'a> for Soil<'a, 'n> {
    type Record = OwnInfil;

    ghost reading_of = { λ soil. form_reading (context_of soil.known.now) (soil_forms soil.method) };

    fn read(
        &self,
        alloc: Global,
        line: &'a Line,
        naming: Naming,
    ) -> Result<Reading<OwnInfil>, OutOfMemory> {
        match line.section {
            SectionName::Infiltration => read_infil(alloc, self.method, self.known, naming, line),
            _ => Ok(Reading::Other),
        }
    }
}

/// Reads a line of INFILTRATION by the form of the method.
fn read_infil<'a>(
    alloc: Global,
    method: InfilKind,
    known: &Known<'a>,
    naming: Naming,
    line: &'a Line,
) -> Result<Reading<OwnInfil>, OutOfMemory>
    ensures { IfOk result (λ reading. reading ≡ row_reading (context_of known.now) naming
        (infil_form method) line.now) }
{
    match method {
        InfilKind::ModifiedHorton => read_row::<6, HortonRows>(alloc, known, naming, line),
        InfilKind::CurveNumber => read_row::<4, NumberRows>(alloc, known, naming, line),
    }
}

/// The name that a line of INFILTRATION begins with.
fn name_of_soil(method: InfilKind, line: &Line) -> Option<&[u8]>
    ensures { option_map (λ name. name.now) result ≡ form_name (soil_forms method) line.now }
{
    match line.section {
        SectionName::Infiltration => name_infil(method, line),
        _ => None,
    }
}

/// The same by the method.
fn name_infil(method: InfilKind, line: &Line) -> Option<&[u8]>
    ensures { option_map (λ name. name.now) result ≡ row_name (infil_form method) line.now }
{
    match method {
        InfilKind::ModifiedHorton => name_row::<6, HortonRows>(line),
        InfilKind::CurveNumber => name_row::<4, NumberRows>(line),
    }
}

/// Reads the infiltration numbers that lines give by the method of the options, appends them, and gives the first
/// hundred faults of their lines (User's Manual, section [INFILTRATION]).
#[tactic(auto, unfolding(inp_owners::specs::Owners::owned_of))]
pub fn read_soil<'a>(
    alloc: Global,
    method: InfilKind,
    known: &Known<'a>,
    lines: &'a List<Line>,
    soil: &mut List<OwnInfil>,
) -> Result<List<LineFault>, OutOfMemory>
    ensures soil { OnOk result (soil.new ≡ soil.old ++ soil_of method (context_of known.now) lines.now) }
    ensures faults { IfOk result (λ faults. faults ≡ cut (gather (soil_fault method
        (context_of known.now)) [] lines.now)) }
{
    read_kind(alloc, &Soil { method, known }, lines, soil)
}

impl Owned for OwnInfil {
    type Object = Sub;

    ghost number_of = { sub_of_infil };

    ghost changed = { with_own_infil };

    fn number(&self) -> u32 {
        self.sub
    }

    fn change(&self, sub: &mut Sub) {
        sub.infil = Some(self.infil);
    }
}

/// Gives subcatchments their infiltration numbers.
#[tactic(auto, unfolding(crate::specs::Soil::with_infil))]
pub fn place_infil(subs: &mut List<Sub>, soil: &List<OwnInfil>)
    ensures { subs.new ≡ with_infil soil.now subs.old }
{
    place_owned(subs, soil);
}
