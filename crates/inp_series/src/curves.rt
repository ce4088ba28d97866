// Curves.
ghost use Rattle.std.specs.Prelude.{◌≡◌, ◌-◌, ◌/◌, ⊤, [], if◌then◌else◌, drop, length, map};
ghost use Rattle.std.specs.Prelude.{None, IfOk};
ghost use Rattle.std.specs.Option.{unwrap_or};
ghost use Rattle.net_types.specs.declared.tables.CurveKind.TheVariants.{Storage};
ghost use Rattle.inp_lines.specs.Faults.{cut, token_at};
ghost use Rattle.inp_lines.specs.Gather.{gather};
ghost use Rattle.inp_lines.specs.Names.{number_in};
ghost use Rattle.inp_lines.specs.Numbers.{numbers_of};
ghost use Rattle.inp_series.specs.CurveLines.{curve_fault, curve_form, curve_names, curve_states, curves_of};
ghost use Rattle.inp_series.specs.CurveLines.{fault_with, is_curve_line, kind_fault, kind_of};
ghost use Rattle.inp_series.specs.Pairs.{are_no_pairs};

use crate::pairs::{Axis, add_pairs, are_no_pairs, from_place, last_x, pairs_fault};
use inp_lines::{Fault, Line, SectionName, fault_of_kind, is_too_long};
use inp_lists::{Chain, Chained, read_chain, text_at};
use inp_values::is_word;
use net_types::{Curve, CurveKind, FaultKind, List, OutOfMemory, Text};
use std::alloc::Global;

/// What the next line of a curve is judged by: whether it is the first, the curve's type, none where it is at fault,
/// and the last x.
#[derive(Clone, Copy, Debug)]
pub struct CurveState {
    pub first: bool,
    pub kind: Option<CurveKind>,
    pub last: Option<i64>,
}

/// All curves.
#[derive(Clone, Copy)]
struct CurveChain;

/// Reads the curves that lines give, and the first hundred faults of their lines (User's Manual, section [CURVES]). The
/// state of a curve has its type, none where that is at fault.
pub fn read_curves<'a>(
    alloc: Global,
    lines: &'a List<Line>,
) -> Result<Chained<'a, Curve, CurveState>, OutOfMemory>
    ensures names { IfOk result (λ read. numbers_of read.names ≡ number_in (curve_names lines.now)) }
    ensures curves { IfOk result (λ read. read.records ≡ curves_of lines.now) }
    ensures states { IfOk result (λ read. read.states ≡ curve_states lines.now) }
    ensures faults { IfOk result (λ read. read.faults ≡ cut (gather curve_fault [] lines.now)) }
{
    read_chain(alloc, &CurveChain, lines)
}

/// The types of curves by what is known of their lines.
pub fn curve_kinds(
    alloc: Global,
    states: &List<CurveState>,
) -> Result<List<Option<CurveKind>>, OutOfMemory>
    ensures { IfOk result (λ kinds. kinds ≡ map (λ state. state.kind) states.now) }
{
    let mut kinds = List::new(alloc);
    for state in states.as_slice() {
        kinds.push(state.kind)?;
    }
    Ok(kinds)
}

/// The type of a curve by its word.
fn kind_of(text: &[u8]) -> Option<CurveKind>
    ensures { result ≡ kind_of text.now }
{
    if is_word(text, b"STORAGE") {
        return Some(CurveKind::Storage);
    }
    if is_word(text, b"PUMP1") {
        return Some(CurveKind::Pump1);
    }
    if is_word(text, b"PUMP2") {
        return Some(CurveKind::Pump2);
    }
    if is_word(text, b"PUMP3") {
        return Some(CurveKind::Pump3);
    }
    if is_word(text, b"PUMP4") {
        return Some(CurveKind::Pump4);
    }
    if is_word(text, b"TIDAL") {
        return Some(CurveKind::Tidal);
    }
    None
}

/// The fault of a text that is no type.
fn kind_fault(kind: Option<CurveKind>) -> Option<Fault>
    ensures { result ≡ kind_fault kind }
{
    match kind {
        None => Some(fault_of_kind(FaultKind::NotInProfile, 1)),
        Some(_) => None,
    }
}

/// The fault of the type on the first line of a curve.
fn first_fault(first: bool, line: &Line) -> Option<Fault>
    ensures { result ≡ (if first then kind_fault (kind_of (token_at line.now.tokens 1)) else None) }
{
    if first {
        kind_fault(kind_of(text_at(line.tokens.as_slice(), 1)))
    } else {
        None
    }
}

/// The type of a curve after a line.
fn kind_with(first: bool, kind: Option<CurveKind>, line: &Line) -> Option<CurveKind>
    ensures { result ≡ (if first then kind_of (token_at line.now.tokens 1) else kind) }
{
    if first {
        kind_of(text_at(line.tokens.as_slice(), 1))
    } else {
        kind
    }
}

/// The place of the first pair.
fn place_by(first: bool) -> usize
    ensures { result ≡ (if first then 2 else 1) }
{
    if first { 2 } else { 1 }
}

/// Whether a line is one of a curve.
fn is_line(line: &Line) -> bool
    ensures { result ≡ is_curve_line line.now }
{
    match line.section {
        SectionName::Curves => !is_too_long(line),
        _ => false,
    }
}

/// The items of a line that are pairs.
fn pairs_of(first: bool, line: &Line) -> &[Text]
    ensures { result.now ≡ drop (if first then 2 else 1) line.now.tokens }
{
    from_place(line.tokens.as_slice(), place_by(first))
}

/// Whether a line has too few items.
fn is_short_line(first: bool, line: &Line) -> bool
    ensures { result ≡ are_no_pairs (length line.now.tokens - (if first then 2 else 1)) }
{
    are_no_pairs(line.tokens.as_slice().len().saturating_sub(place_by(first)))
}

/// How many pairs a line has.
fn size_of(first: bool, line: &Line) -> usize
    ensures { result ≡ length (drop (if first then 2 else 1) line.now.tokens) / 2 }
{
    pairs_of(first, line).len() / 2
}

/// The fault of a line where this is the last x before it.
fn fault_of_line(first: bool, last: Option<i64>, line: &Line) -> Option<Fault>
    ensures { result ≡ fault_with first last line.now }
{
    match first_fault(first, line) {
        Some(found) => Some(found),
        None => pairs_fault(Axis::Amounts, last, place_by(first), line.tokens.as_slice()),
    }
}

/// A type, or that of a storage where there is none.
fn kind_or_storage(kind: Option<CurveKind>) -> CurveKind
    ensures { result ≡ unwrap_or kind Storage }
{
    match kind {
        Some(kind) => kind,
        None => CurveKind::Storage,
    }
}

impl Chain for CurveChain {
    type Record = Curve;

    type State = CurveState;

    ghost form = { λ _. curve_form };

    ghost is_good = { λ _. ⊤ };

    #[tactic(auto, unfolding(crate::specs::CurveLines::curve_form))]
    fn is_of(&self, line: &Line) -> bool {
        is_line(line)
    }

    #[tactic(auto, unfolding(crate::specs::CurveLines::curve_form))]
    fn is_short(&self, state: CurveState, line: &Line) -> bool {
        is_short_line(state.first, line)
    }

    #[tactic(auto, unfolding(crate::specs::CurveLines::curve_form))]
    fn size(&self, state: CurveState, line: &Line) -> usize {
        size_of(state.first, line)
    }

    #[tactic(auto, unfolding(crate::specs::CurveLines::curve_form))]
    fn item_fault(&self, state: CurveState, line: &Line) -> Option<Fault> {
        fault_of_line(state.first, state.last, line)
    }

    #[tactic(auto, unfolding(crate::specs::CurveLines::curve_form))]
    fn no_lines(&self) -> CurveState {
        CurveState {
            first: true,
            kind: None,
            last: None,
        }
    }

    #[tactic(auto, unfolding(crate::specs::CurveLines::curve_form))]
    fn new_record(&self, alloc: Global, name: &[u8]) -> Result<Curve, OutOfMemory> {
        Ok(Curve {
            name: Text::from_slice(alloc, name)?,
            kind: CurveKind::Storage,
            points: List::new(alloc),
        })
    }

    #[tactic(auto, unfolding(crate::specs::CurveLines::curve_form))]
    fn add(
        &self,
        _: Global,
        made: &mut Curve,
        state: CurveState,
        line: &Line,
    ) -> Result<CurveState, OutOfMemory> {
        let pairs = pairs_of(state.first, line);
        let kind = kind_with(state.first, state.kind, line);
        made.kind = kind_or_storage(kind);
        add_pairs(Axis::Amounts, pairs, &mut made.points)?;
        Ok(CurveState {
            first: false,
            kind,
            last: last_x(Axis::Amounts, state.last, pairs),
        })
    }
}
