// Time patterns.
ghost use Rattle.std.specs.Prelude.{◌≡◌, ◌-◌, ◌++◌, ◌∷◌, ⊤, [], if◌then◌else◌, drop};
ghost use Rattle.std.specs.Prelude.{filter_map, option_map, option_to_list};
ghost use Rattle.std.specs.Prelude.{None, IfOk, OnOk, MatchOption};
ghost use Rattle.inp_lines.specs.Faults.{cut, token_at};
ghost use Rattle.inp_lines.specs.Gather.{gather};
ghost use Rattle.inp_lines.specs.Names.{number_in};
ghost use Rattle.inp_lines.specs.Numbers.{numbers_of};
ghost use Rattle.std.specs.Option.{unwrap_or};
ghost use Rattle.net_types.specs.Ranges.{most_factors};
ghost use Rattle.net_types.specs.declared.tables.PatternKind.TheVariants.{Monthly};
ghost use Rattle.inp_series.specs.PatternLines.{factor_fault, factor_of, factors_fault, factors_left, fault_with};
ghost use Rattle.inp_series.specs.PatternLines.{is_pattern_line, pattern_fault, pattern_form, pattern_kind_fault};
ghost use Rattle.inp_series.specs.PatternLines.{pattern_kind_of, pattern_names, patterns_of};

use crate::pairs::from_place;
use fixed_num::scaled_decimal;
use inp_lines::{Fault, Line, SectionName, fault_of_kind, is_too_long};
use inp_lists::{Chain, Chained, read_chain, text_at};
use inp_values::{Quantity, is_word, unit_of};
use net_types::{FaultKind, FlowUnits, List, OutOfMemory, Pattern, PatternKind, Text};
use std::alloc::Global;

/// What the next line of a pattern is judged by: whether it is the first, the pattern's type, none where it is at
/// fault, and how many factors may follow, without a limit where there is no type.
#[derive(Clone, Copy, Debug)]
pub struct PatternState {
    pub first: bool,
    pub kind: Option<PatternKind>,
    pub left: Option<usize>,
}

/// All patterns.
#[derive(Clone, Copy)]
struct PatternChain;

/// Reads the time patterns that lines give, and the first hundred faults of their lines (User's Manual, section
/// [PATTERNS]).
pub fn read_patterns<'a>(
    alloc: Global,
    lines: &'a List<Line>,
) -> Result<Chained<'a, Pattern, PatternState>, OutOfMemory>
    ensures names { IfOk result (λ read. numbers_of read.names ≡ number_in (pattern_names lines.now)) }
    ensures patterns { IfOk result (λ read. read.records ≡ patterns_of lines.now) }
    ensures faults { IfOk result (λ read. read.faults ≡ cut (gather pattern_fault [] lines.now)) }
{
    read_chain(alloc, &PatternChain, lines)
}

/// The type of a pattern by its word.
fn kind_of(text: &[u8]) -> Option<PatternKind>
    ensures { result ≡ pattern_kind_of text.now }
{
    if is_word(text, b"MONTHLY") {
        return Some(PatternKind::Monthly);
    }
    if is_word(text, b"DAILY") {
        return Some(PatternKind::Daily);
    }
    if is_word(text, b"HOURLY") {
        return Some(PatternKind::Hourly);
    }
    if is_word(text, b"WEEKEND") {
        return Some(PatternKind::Weekend);
    }
    None
}

/// How many factors a pattern of a type may have.
fn most_factors(kind: PatternKind) -> usize
    ensures { result ≡ most_factors kind }
{
    match kind {
        PatternKind::Monthly => 12,
        PatternKind::Daily => 7,
        PatternKind::Hourly | PatternKind::Weekend => 24,
    }
}

/// How many factors a pattern may have that has none yet.
fn most_of(kind: Option<PatternKind>) -> Option<usize>
    ensures { result ≡ factors_left kind 0 }
{
    match kind {
        None => None,
        Some(kind) => Some(most_factors(kind)),
    }
}

/// How many factors may follow after some more.
fn less(left: Option<usize>, count: usize) -> Option<usize>
    ensures { result ≡ option_map (λ left. left - count) left }
{
    match left {
        None => None,
        Some(left) => Some(left.saturating_sub(count)),
    }
}

/// A factor.
fn factor(text: &[u8]) -> Option<i64>
    ensures { result ≡ factor_of text.now }
{
    scaled_decimal(text, &unit_of(FlowUnits::Cms, Quantity::Coefficient))
}

/// The fault of a factor at a place, where so many may follow.
fn factor_fault(left: Option<usize>, place: usize, text: &[u8]) -> Option<Fault>
    ensures { result ≡ factor_fault left place text.now }
{
    if let Some(0) = left {
        return Some(fault_of_kind(FaultKind::OverLimit, place));
    }
    match factor(text) {
        None => Some(fault_of_kind(FaultKind::InvalidNumber, place)),
        Some(_) => None,
    }
}

/// The first fault of the factors that stand behind the first items of a line.
fn factors_fault(left: Option<usize>, first: usize, tokens: &[Text]) -> Option<Fault>
    ensures { result ≡ factors_fault left first (drop first tokens.now) }
{
    let count = tokens.len();
    let mut rest = from_place(tokens, first);
    let mut left = left;
    while let Some((text, more)) = next_item(rest) {
        match factor_fault(left, count - rest.len(), text) {
            Some(found) => return Some(found),
            None => {
                left = less(left, 1);
                rest = more;
            }
        }
    }
    None
}

/// The first item, and what stands behind it.
fn next_item(tokens: &[Text]) -> Option<(&[u8], &[Text])>
    ensures { MatchOption result (tokens.now ≡ []) (λ found. tokens.now ≡ found.0.now ∷ found.1.now) }
{
    match tokens {
        [text, rest @ ..] => Some((text.as_slice(), rest)),
        [] => None,
    }
}

/// Appends the factors.
fn add_factors(tokens: &[Text], factors: &mut List<i64>) -> Result<(), OutOfMemory>
    ensures { OnOk result (factors.new ≡ factors.old ++ filter_map factor_of tokens.now) }
{
    let mut rest = tokens;
    while let Some((text, more)) = next_item(rest) {
        add_factor(factor(text), factors)?;
        rest = more;
    }
    Ok(())
}

/// Appends a factor, if it is one.
fn add_factor(factor: Option<i64>, factors: &mut List<i64>) -> Result<(), OutOfMemory>
    ensures { OnOk result (factors.new ≡ factors.old ++ option_to_list factor) }
{
    match factor {
        None => Ok(()),
        Some(factor) => {
            factors.push(factor)?;
            Ok(())
        }
    }
}

/// The fault of a text that is no type.
fn kind_fault(kind: Option<PatternKind>) -> Option<Fault>
    ensures { result ≡ pattern_kind_fault kind }
{
    match kind {
        None => Some(fault_of_kind(FaultKind::InvalidKeyword, 1)),
        Some(_) => None,
    }
}

/// The fault of the type on the first line of a pattern.
fn first_fault(first: bool, kind: Option<PatternKind>) -> Option<Fault>
    ensures { result ≡ (if first then pattern_kind_fault kind else None) }
{
    if first { kind_fault(kind) } else { None }
}

/// The type of a pattern after a line.
fn kind_with(first: bool, kind: Option<PatternKind>, line: &Line) -> Option<PatternKind>
    ensures { result ≡ (if first then pattern_kind_of (token_at line.now.tokens 1) else kind) }
{
    if first {
        kind_of(text_at(line.tokens.as_slice(), 1))
    } else {
        kind
    }
}

/// How many factors may stand on a line of a pattern of this type, where so many were left before.
fn left_with(first: bool, kind: Option<PatternKind>, left: Option<usize>) -> Option<usize>
    ensures { result ≡ (if first then factors_left kind 0 else left) }
{
    if first { most_of(kind) } else { left }
}

/// The place of the first factor.
fn place_by(first: bool) -> usize
    ensures { result ≡ (if first then 2 else 1) }
{
    if first { 2 } else { 1 }
}

/// The items of a line that are factors.
fn factors_of(first: bool, line: &Line) -> &[Text]
    ensures { result.now ≡ drop (if first then 2 else 1) line.now.tokens }
{
    from_place(line.tokens.as_slice(), place_by(first))
}

/// The fault of a line of a pattern of this type, where so many factors may follow.
fn fault_of_line(
    first: bool,
    kind: Option<PatternKind>,
    left: Option<usize>,
    line: &Line,
) -> Option<Fault>
    ensures { result ≡ fault_with first kind left line.now }
{
    match first_fault(first, kind) {
        Some(found) => Some(found),
        None => factors_fault(left, place_by(first), line.tokens.as_slice()),
    }
}

/// Whether a line is one of a pattern.
fn is_line(line: &Line) -> bool
    ensures { result ≡ is_pattern_line line.now }
{
    match line.section {
        SectionName::Patterns => !is_too_long(line),
        _ => false,
    }
}

/// A type, or the monthly one where there is none.
fn kind_or_monthly(kind: Option<PatternKind>) -> PatternKind
    ensures { result ≡ unwrap_or kind Monthly }
{
    match kind {
        Some(kind) => kind,
        None => PatternKind::Monthly,
    }
}

impl Chain for PatternChain {
    type Record = Pattern;

    type State = PatternState;

    ghost form = { λ _. pattern_form };

    ghost is_good = { λ _. ⊤ };

    #[tactic(auto, unfolding(crate::specs::PatternLines::pattern_form))]
    fn is_of(&self, line: &Line) -> bool {
        is_line(line)
    }

    #[tactic(auto, unfolding(crate::specs::PatternLines::pattern_form))]
    fn is_short(&self, _: PatternState, line: &Line) -> bool {
        line.tokens.as_slice().len() < 2
    }

    #[tactic(auto, unfolding(crate::specs::PatternLines::pattern_form))]
    fn size(&self, _: PatternState, _: &Line) -> usize {
        0
    }

    #[tactic(auto, unfolding(crate::specs::PatternLines::pattern_form))]
    fn item_fault(&self, state: PatternState, line: &Line) -> Option<Fault> {
        let kind = kind_with(state.first, state.kind, line);
        let left = left_with(state.first, kind, state.left);
        fault_of_line(state.first, kind, left, line)
    }

    #[tactic(auto, unfolding(crate::specs::PatternLines::pattern_form))]
    fn no_lines(&self) -> PatternState {
        PatternState {
            first: true,
            kind: None,
            left: None,
        }
    }

    #[tactic(auto, unfolding(crate::specs::PatternLines::pattern_form))]
    fn new_record(&self, alloc: Global, name: &[u8]) -> Result<Pattern, OutOfMemory> {
        Ok(Pattern {
            name: Text::from_slice(alloc, name)?,
            kind: PatternKind::Monthly,
            factors6: List::new(alloc),
        })
    }

    #[tactic(auto, unfolding(crate::specs::PatternLines::pattern_form))]
    fn add(
        &self,
        _: Global,
        made: &mut Pattern,
        state: PatternState,
        line: &Line,
    ) -> Result<PatternState, OutOfMemory> {
        let factors = factors_of(state.first, line);
        let kind = kind_with(state.first, state.kind, line);
        let left = left_with(state.first, kind, state.left);
        made.kind = kind_or_monthly(kind);
        add_factors(factors, &mut made.factors6)?;
        Ok(PatternState {
            first: false,
            kind,
            left: less(left, factors.len()),
        })
    }
}
