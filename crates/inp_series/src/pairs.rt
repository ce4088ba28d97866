// Pairs of items, as the lines of time series and curves have them.
ghost use Rattle.std.specs.Prelude.{◌≡◌, ◌≤◌, ◌<◌, ◌+◌, ◌^◌, ◌++◌, ◌∷◌, pos};
ghost use Rattle.std.specs.Prelude.{◌+ℤ◌, ◌-ℤ◌, ◌*ℤ◌, length, drop, option_map, IfSome, OnOk};
ghost use Rattle.std.specs.Prelude.{MatchOption};
ghost use Rattle.std.specs.List.{last_or};
ghost use Rattle.std.specs.Option.{option_or};
ghost use Rattle.fixed_num.specs.Ranges.{IsBetween, IsMoment};
ghost use Rattle.inp_series.specs.Pairs.{amount_of, are_no_pairs, bad_kind, follows, moved, order_kind, pair_fault};
ghost use Rattle.inp_series.specs.Pairs.{pair_of};
ghost use Rattle.inp_series.specs.Pairs.{pairs_fault, values_of, x_of, xs_of};
ghost use Rattle.inp_series.specs.Axes.{IsAxis};

use fixed_num::scaled_decimal;
use inp_lines::{Fault, fault_of_kind};
use inp_values::{Quantity, hours, unit_of};
use net_types::{FaultKind, FlowUnits, List, OutOfMemory, Text};

/// What the first items of pairs are.
#[derive(Clone, Copy)]
pub(crate) enum Axis {
    /// Raw numbers.
    Amounts,
    /// Hours, by the start of the run in ms from 1970-01-01 and the date from which they count, if there is one, in
    /// days.
    Hours(i64, Option<i32>),
}

/// The first pair of items, and what stands behind it.
fn next_pair(tokens: &[Text]) -> Option<(&[u8], &[u8], &[Text])>
    ensures { MatchOption result (length tokens.now ≤ 1)
        (λ found. tokens.now ≡ found.0.now ∷ found.1.now ∷ found.2.now) }
{
    match tokens {
        [x, y, rest @ ..] => Some((x.as_slice(), y.as_slice(), rest)),
        _ => None,
    }
}

/// The stored value of a raw number.
fn amount(text: &[u8]) -> Option<i64>
    ensures { result ≡ amount_of text.now }
{
    scaled_decimal(text, &unit_of(FlowUnits::Cms, Quantity::Raw))
}

/// The value of the first item of a pair.
fn x_value(axis: Axis, text: &[u8]) -> Option<i64>
    requires { IsAxis axis }
    ensures { result ≡ x_of axis text.now }
{
    match axis {
        Axis::Amounts => amount(text),
        Axis::Hours(start, date) => time(start, date, hours(text)),
    }
}

/// Hours as a time from the start of a run.
fn time(start: i64, date: Option<i32>, ms: Option<i64>) -> Option<i64>
    requires start { IsMoment start }
    requires hours { IfSome ms (λ ms. IsBetween (pos 0) ms (pos (10 ^ 12))) }
    ensures { result ≡ option_map (moved start date) ms }
{
    match ms {
        None => None,
        Some(ms) => Some(time_of(start, date, ms)),
    }
}

/// A time from the start of a run that is some ms from the start, or from the beginning of a day.
fn time_of(start: i64, date: Option<i32>, ms: i64) -> i64
    requires start { IsMoment start }
    requires hours { IsBetween (pos 0) ms (pos (10 ^ 12)) }
    ensures { result ≡ moved start date ms }
{
    match date {
        None => ms,
        Some(day) => on_day(start, day, ms),
    }
}

/// A time from the start of a run that is some ms from the beginning of a day.
fn on_day(start: i64, day: i32, ms: i64) -> i64
    requires start { IsMoment start }
    requires hours { IsBetween (pos 0) ms (pos (10 ^ 12)) }
    ensures { result ≡ day *ℤ pos 86_400_000 -ℤ start +ℤ ms }
{
    day as i64 * 86_400_000 - start + ms
}

/// The fault of a text that has no such value.
fn bad_kind(axis: Axis) -> FaultKind
    ensures { result ≡ bad_kind axis }
{
    match axis {
        Axis::Amounts => FaultKind::InvalidNumber,
        Axis::Hours(_, _) => FaultKind::InvalidTime,
    }
}

/// The fault of a value that isn't greater than the one before it.
fn order_kind(axis: Axis) -> FaultKind
    ensures { result ≡ order_kind axis }
{
    match axis {
        Axis::Amounts => FaultKind::CurveOrder,
        Axis::Hours(_, _) => FaultKind::SeriesOrder,
    }
}

/// Whether a value is greater than the one before it.
fn follows(last: Option<i64>, x: i64) -> bool
    ensures { result ≡ follows last x }
{
    match last {
        None => true,
        Some(last) => last < x,
    }
}

/// The fault of a pair at a place.
fn pair_fault(
    axis: Axis,
    last: Option<i64>,
    place: usize,
    x: Option<i64>,
    y: Option<i64>,
) -> Option<Fault>
    requires { place + 1 < 2 ^ 64 }
    ensures { result ≡ pair_fault axis last place x y }
{
    let Some(x) = x else {
        return Some(fault_of_kind(bad_kind(axis), place));
    };
    if !follows(last, x) {
        return Some(fault_of_kind(order_kind(axis), place));
    }
    match y {
        None => Some(fault_of_kind(FaultKind::InvalidNumber, place + 1)),
        Some(_) => None,
    }
}

/// A value, or else the one before it.
fn later(x: Option<i64>, last: Option<i64>) -> Option<i64>
    ensures { result ≡ option_or x last }
{
    match x {
        Some(x) => Some(x),
        None => last,
    }
}

/// The first fault of the pairs behind the first items of a line, where this is the last value before them.
pub(crate) fn pairs_fault(
    axis: Axis,
    last: Option<i64>,
    first: usize,
    tokens: &[Text],
) -> Option<Fault>
    requires { IsAxis axis }
    ensures { result ≡ pairs_fault axis last first (drop first tokens.now) }
{
    let count = tokens.len();
    let mut rest = from_place(tokens, first);
    let mut last = last;
    while let Some((x, y, more)) = next_pair(rest) {
        let value = x_value(axis, x);
        match pair_fault(axis, last, count - rest.len(), value, amount(y)) {
            Some(found) => return Some(found),
            None => {
                last = later(value, last);
                rest = more;
            }
        }
    }
    None
}

/// The items of a line from a place on.
pub(crate) fn from_place(tokens: &[Text], first: usize) -> &[Text]
    ensures { result.now ≡ drop first tokens.now }
{
    match tokens.get(first..) {
        Some(rest) => rest,
        None => &[],
    }
}

/// The last value of first items, or else the one before them.
pub(crate) fn last_x(axis: Axis, last: Option<i64>, tokens: &[Text]) -> Option<i64>
    requires { IsAxis axis }
    ensures { result ≡ last_or last (xs_of axis tokens.now) }
{
    let mut rest = tokens;
    let mut last = last;
    while let Some((x, _, more)) = next_pair(rest) {
        last = later(x_value(axis, x), last);
        rest = more;
    }
    last
}

/// Appends the pairs of values.
pub(crate) fn add_pairs(
    axis: Axis,
    tokens: &[Text],
    pairs: &mut List<(i64, i64)>,
) -> Result<(), OutOfMemory>
    requires { IsAxis axis }
    ensures { OnOk result (pairs.new ≡ pairs.old ++ values_of axis tokens.now) }
{
    let mut rest = tokens;
    while let Some((x, y, more)) = next_pair(rest) {
        add_pair(x_value(axis, x), amount(y), pairs)?;
        rest = more;
    }
    Ok(())
}

/// Appends a pair, if both its items have values.
fn add_pair(x: Option<i64>, y: Option<i64>, pairs: &mut List<(i64, i64)>) -> Result<(), OutOfMemory>
    ensures { OnOk result (pairs.new ≡ pairs.old ++ pair_of x y) }
{
    let Some(x) = x else {
        return Ok(());
    };
    let Some(y) = y else {
        return Ok(());
    };
    pairs.push((x, y))?;
    Ok(())
}

/// Whether so many items aren't pairs.
pub(crate) fn are_no_pairs(count: usize) -> bool
    ensures { result ≡ are_no_pairs count }
{
    count == 0 || count % 2 == 1
}
