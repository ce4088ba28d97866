// Time series.
ghost use Rattle.std.specs.Prelude.{◌≡◌, ◌&&◌, ◌/◌, [], length, IfOk};
ghost use Rattle.std.specs.Option.{option_or};
ghost use Rattle.fixed_num.specs.Ranges.{IsMoment};
ghost use Rattle.inp_lines.specs.Faults.{cut};
ghost use Rattle.inp_lines.specs.Gather.{gather};
ghost use Rattle.inp_lines.specs.Names.{number_in};
ghost use Rattle.inp_lines.specs.Numbers.{numbers_of};
ghost use Rattle.inp_series.specs.SeriesLines.{date_at, date_in, fault_with, is_file, is_series_line, series_fault};
ghost use Rattle.inp_series.specs.SeriesLines.{series_form, series_is_short, series_names, series_of, series_pairs};
ghost use Rattle.inp_series.specs.SeriesLines.{series_place};

use crate::pairs::{Axis, add_pairs, are_no_pairs, from_place, last_x, pairs_fault};
use inp_lines::{Fault, Line, SectionName, fault_of_kind, is_too_long};
use inp_lists::{Chain, Chained, read_chain, text_at};
use inp_values::{date, is_word};
use net_types::{FaultKind, List, OutOfMemory, Series, Text};
use std::alloc::Global;

/// What the next line of a series is judged by: the date that holds, in days from 1970-01-01, and the last time.
#[derive(Clone, Copy, Debug)]
pub struct SeriesState {
    pub date: Option<i32>,
    pub last: Option<i64>,
}

/// Time series of a run that starts at this moment, in ms from 1970-01-01.
#[derive(Clone, Copy)]
struct SeriesChain {
    start: i64,
}

/// Reads the time series that lines give for a run that starts at this moment, in ms from 1970-01-01, and the first
/// hundred faults of their lines (User's Manual, section [TIMESERIES]).
pub fn read_series<'a>(
    alloc: Global,
    start: i64,
    lines: &'a List<Line>,
) -> Result<Chained<'a, Series, SeriesState>, OutOfMemory>
    requires { IsMoment start }
    ensures names { IfOk result (λ read. numbers_of read.names ≡ number_in (series_names start lines.now)) }
    ensures series { IfOk result (λ read. read.records ≡ series_of start lines.now) }
    ensures faults { IfOk result (λ read. read.faults ≡ cut (gather (series_fault start) [] lines.now)) }
{
    read_chain(alloc, &SeriesChain { start }, lines)
}

/// Whether a line takes its series from a file.
fn is_file(line: &Line) -> bool
    ensures { result ≡ is_file line.now }
{
    let tokens = line.tokens.as_slice();
    tokens.len() >= 3 && is_word(text_at(tokens, 1), b"FILE")
}

/// The date that a line begins with.
fn date_at(line: &Line) -> Option<i32>
    ensures { result ≡ date_at line.now }
{
    match date(text_at(line.tokens.as_slice(), 1)) {
        Some(day) => Some(day as i32),
        None => None,
    }
}

/// The place of the first pair.
fn place_of(line: &Line) -> usize
    ensures { result ≡ series_place line.now }
{
    if date_at(line).is_some() { 2 } else { 1 }
}

/// The items that are pairs.
fn pairs_of(line: &Line) -> &[Text]
    ensures { result.now ≡ series_pairs line.now }
{
    if is_file(line) {
        &[]
    } else {
        from_place(line.tokens.as_slice(), place_of(line))
    }
}

/// The date that holds for a line.
fn date_with(date: Option<i32>, line: &Line) -> Option<i32>
    ensures { result ≡ option_or (date_at line.now) date }
{
    match date_at(line) {
        Some(day) => Some(day),
        None => date,
    }
}

/// Whether a line is one of a series.
fn is_line(line: &Line) -> bool
    ensures { result ≡ is_series_line line.now }
{
    match line.section {
        SectionName::TimeSeries => !is_too_long(line),
        _ => false,
    }
}

/// Whether a line has too few items.
fn is_short_line(line: &Line) -> bool
    ensures { result ≡ series_is_short line.now }
{
    if is_file(line) {
        return false;
    }
    are_no_pairs(line.tokens.as_slice().len().saturating_sub(place_of(line)))
}

/// How many pairs a line has.
fn size_of(line: &Line) -> usize
    ensures { result ≡ length (series_pairs line.now) / 2 }
{
    pairs_of(line).len() / 2
}

/// The fault of a line where this date holds, and this is the last time before it.
fn fault_of_line(start: i64, date: Option<i32>, last: Option<i64>, line: &Line) -> Option<Fault>
    requires { IsMoment start }
    ensures { result ≡ fault_with start date last line.now }
{
    if is_file(line) {
        return Some(fault_of_kind(FaultKind::NotInProfile, 1));
    }
    pairs_fault(
        Axis::Hours(start, date),
        last,
        place_of(line),
        line.tokens.as_slice(),
    )
}

impl Chain for SeriesChain {
    type Record = Series;

    type State = SeriesState;

    ghost form = { λ chain. series_form chain.start };

    ghost is_good = { λ chain. IsMoment chain.start };

    #[tactic(auto, unfolding(crate::specs::SeriesLines::series_form))]
    fn is_of(&self, line: &Line) -> bool {
        is_line(line)
    }

    #[tactic(auto, unfolding(crate::specs::SeriesLines::series_form))]
    fn is_short(&self, _: SeriesState, line: &Line) -> bool {
        is_short_line(line)
    }

    #[tactic(auto, unfolding(crate::specs::SeriesLines::series_form))]
    fn size(&self, _: SeriesState, line: &Line) -> usize {
        size_of(line)
    }

    #[tactic(auto, unfolding(crate::specs::SeriesLines::series_form))]
    fn item_fault(&self, state: SeriesState, line: &Line) -> Option<Fault> {
        fault_of_line(self.start, date_with(state.date, line), state.last, line)
    }

    #[tactic(auto, unfolding(crate::specs::SeriesLines::series_form))]
    fn no_lines(&self) -> SeriesState {
        SeriesState {
            date: None,
            last: None,
        }
    }

    #[tactic(auto, unfolding(crate::specs::SeriesLines::series_form))]
    fn new_record(&self, alloc: Global, name: &[u8]) -> Result<Series, OutOfMemory> {
        Ok(Series {
            name: Text::from_slice(alloc, name)?,
            dated: true,
            entries: List::new(alloc),
        })
    }

    #[tactic(auto, unfolding(crate::specs::SeriesLines::series_form))]
    fn add(
        &self,
        _: Global,
        made: &mut Series,
        state: SeriesState,
        line: &Line,
    ) -> Result<SeriesState, OutOfMemory> {
        let date = date_with(state.date, line);
        let axis = Axis::Hours(self.start, date);
        let pairs = pairs_of(line);
        made.dated = both(made.dated, date.is_some());
        add_pairs(axis, pairs, &mut made.entries)?;
        Ok(SeriesState {
            date,
            last: last_x(axis, state.last, pairs),
        })
    }
}

/// Whether both hold.
fn both(a: bool, b: bool) -> bool
    ensures { result ≡ (a && b) }
{
    a && b
}
