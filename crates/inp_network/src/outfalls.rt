// Outfalls: the section OUTFALLS.
ghost use Rattle.std.specs.Prelude.{◌≡◌, option_map, IfOk};
ghost use Rattle.inp_forms.specs.Context.{context_of};
ghost use Rattle.inp_forms.specs.Forms.{row_name, row_reading};
ghost use Rattle.inp_forms.specs.Getters.{choice_at};
ghost use Rattle.inp_network.specs.Nodes.{fixed_form, is_at, outfall_form, outfall_from, series_form, steady_form};
ghost use Rattle.inp_network.specs.Nodes.{steady_stage, tidal_form};

use crate::nodes::is_word_at;
use inp_forms::{
    Form, Item, Keyword, Known, Objects, Value, What, Words, amount, choice, index, is_on,
    name_row, read_row,
};
use inp_lines::{Line, Naming, Reading, copy_token};
use inp_values::Quantity;
use net_types::{Node, NodeKind, OutOfMemory, Stage};
use std::alloc::Global;

/// The items of an outfall whose stage follows from its conduit: name, invert elevation, type, gate.
pub(crate) const STEADY_OUTFALL: [Item; 5] = [
    Item::Needed(What::Name),
    Item::Needed(What::Number(Quantity::Elevation)),
    Item::Needed(What::Word(Words::SteadyStage)),
    Item::Or(Value::Switch(false), What::YesNo),
    Item::Or(Value::Nothing, What::End),
];

/// The items of an outfall of a fixed stage: name, invert elevation, type, stage, gate.
pub(crate) const FIXED_OUTFALL: [Item; 6] = [
    Item::Needed(What::Name),
    Item::Needed(What::Number(Quantity::Elevation)),
    Item::Needed(What::Word(Words::Stage)),
    Item::Needed(What::Number(Quantity::Elevation)),
    Item::Or(Value::Switch(false), What::YesNo),
    Item::Or(Value::Nothing, What::End),
];

/// The items of an outfall with a tidal curve: name, invert elevation, type, curve, gate.
pub(crate) const TIDAL_OUTFALL: [Item; 6] = [
    Item::Needed(What::Name),
    Item::Needed(What::Number(Quantity::Elevation)),
    Item::Needed(What::Word(Words::Stage)),
    Item::Needed(What::Object(Objects::TidalCurves)),
    Item::Or(Value::Switch(false), What::YesNo),
    Item::Or(Value::Nothing, What::End),
];

/// The items of an outfall with a series of stages: name, invert elevation, type, series, gate.
pub(crate) const SERIES_OUTFALL: [Item; 6] = [
    Item::Needed(What::Name),
    Item::Needed(What::Number(Quantity::Elevation)),
    Item::Needed(What::Word(Words::Stage)),
    Item::Needed(What::Object(Objects::Series)),
    Item::Or(Value::Switch(false), What::YesNo),
    Item::Or(Value::Nothing, What::End),
];

struct SteadyOutfalls;

impl Form<5> for SteadyOutfalls {
    type Record = Node;

    ghost form = { steady_form };

    fn items() -> [Item; 5] {
        STEADY_OUTFALL
    }

    fn make(alloc: Global, line: &Line, values: &[Value]) -> Result<Node, OutOfMemory> {
        make_outfall(alloc, line, values, steady_stage(choice(values, 2)), 3)
    }
}

struct FixedOutfalls;

impl Form<6> for FixedOutfalls {
    type Record = Node;

    ghost form = { fixed_form };

    fn items() -> [Item; 6] {
        FIXED_OUTFALL
    }

    fn make(alloc: Global, line: &Line, values: &[Value]) -> Result<Node, OutOfMemory> {
        make_outfall(alloc, line, values, Stage::Fixed(amount(values, 3)), 4)
    }
}

struct TidalOutfalls;

impl Form<6> for TidalOutfalls {
    type Record = Node;

    ghost form = { tidal_form };

    fn items() -> [Item; 6] {
        TIDAL_OUTFALL
    }

    fn make(alloc: Global, line: &Line, values: &[Value]) -> Result<Node, OutOfMemory> {
        make_outfall(alloc, line, values, Stage::Tidal(index(values, 3)), 4)
    }
}

struct SeriesOutfalls;

impl Form<6> for SeriesOutfalls {
    type Record = Node;

    ghost form = { series_form };

    fn items() -> [Item; 6] {
        SERIES_OUTFALL
    }

    fn make(alloc: Global, line: &Line, values: &[Value]) -> Result<Node, OutOfMemory> {
        make_outfall(alloc, line, values, Stage::Series(index(values, 3)), 4)
    }
}

/// An outfall of a stage, whose gate stands at a place.
fn make_outfall(
    alloc: Global,
    line: &Line,
    values: &[Value],
    stage: Stage,
    gate: usize,
) -> Result<Node, OutOfMemory>
    ensures { IfOk result (λ made. made ≡ outfall_from line.now.tokens values.now stage gate) }
{
    Ok(Node {
        name: copy_token(alloc, line, 0)?,
        invert: amount(values, 1),
        y_max: 0,
        y0: 0,
        kind: NodeKind::Outfall {
            stage,
            gated: is_on(values, gate),
        },
    })
}

/// The stage of a type that needs no item of its own.
fn steady_stage(keyword: Option<Keyword>) -> Stage
    ensures { result ≡ steady_stage keyword }
{
    match keyword {
        Some(Keyword::Normal) => Stage::Normal,
        _ => Stage::Free,
    }
}

/// Reads a line of OUTFALLS by the form of its type.
#[tactic(auto, unfolding(crate::specs::Nodes::outfall_form))]
pub(crate) fn read_outfall<'a>(
    alloc: Global,
    known: &Known<'a>,
    naming: Naming,
    line: &'a Line,
) -> Result<Reading<Node>, OutOfMemory>
    ensures { IfOk result (λ reading. reading ≡ row_reading (context_of known.now) naming
        (outfall_form line.now.tokens) line.now) }
{
    if is_word_at(line, 2, b"FIXED") {
        return read_row::<6, FixedOutfalls>(alloc, known, naming, line);
    }
    if is_word_at(line, 2, b"TIDAL") {
        return read_row::<6, TidalOutfalls>(alloc, known, naming, line);
    }
    if is_word_at(line, 2, b"TIMESERIES") {
        return read_row::<6, SeriesOutfalls>(alloc, known, naming, line);
    }
    read_row::<5, SteadyOutfalls>(alloc, known, naming, line)
}

/// The name that a line of OUTFALLS defines.
#[tactic(auto, unfolding(crate::specs::Nodes::outfall_form))]
pub(crate) fn name_outfall(line: &Line) -> Option<&[u8]>
    ensures { option_map (λ name. name.now) result ≡ row_name (outfall_form line.now.tokens) line.now }
{
    if is_word_at(line, 2, b"FIXED") {
        return name_row::<6, FixedOutfalls>(line);
    }
    if is_word_at(line, 2, b"TIDAL") {
        return name_row::<6, TidalOutfalls>(line);
    }
    if is_word_at(line, 2, b"TIMESERIES") {
        return name_row::<6, SeriesOutfalls>(line);
    }
    name_row::<5, SteadyOutfalls>(line)
}
