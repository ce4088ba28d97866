// One line of an input after another: each item of each section in a line where it is good, and in one where it is at
// fault. The tables have for each line `good`, or the number and the token of its fault. They were written by the
// reference of the input profile, docs/PROFILE.md, and tried on another engine.
mod links;
mod marks;
mod nodes;
mod options;
mod rain;
mod rules;
mod sections;
mod series;

use crate::commands::{LARGE_PIECES, check_over};
use net_types::OutOfMemory;
use std::alloc::{AllocError, Global};
use std::test::Fail;
use swmm_top::Status;

// Lines that stand alone at one place of an input, one of them in each.
#[derive(Drop)]
pub(crate) struct Lines {
    // What stands before the line, after the town.
    pub(crate) above: &'static str,

    // A line of the table is `good` or a fault, `|`, and the line of the input.
    pub(crate) rows: &'static str,

    // What stands after the line.
    pub(crate) below: &'static str,
}

// A town that has each kind of object: the beginning of each input.
const TOWN: &str = "\
[OPTIONS]
FLOW_UNITS CMS
INFILTRATION MODIFIED_HORTON
START_DATE 01/01/2024
[JUNCTIONS]
J1 10 3
J2 9 3
[OUTFALLS]
O1 8 FREE
[STORAGE]
S1 9 3 0 TABULAR AREA
[CONDUITS]
C1 J1 J2 100 0.013 0 0
C2 J2 O1 100 0.013 0 0
[PUMPS]
P1 S1 J1 LIFT
[ORIFICES]
OR1 J1 S1 SIDE 0 0.65
[WEIRS]
WE1 S1 J2 TRANSVERSE 1 1.8
[XSECTIONS]
C1 CIRCULAR 1 0
C2 CIRCULAR 1 0
OR1 CIRCULAR 0.3 0
WE1 RECT_OPEN 1 2
[LOSSES]
C1 0.5 1 0
[RAINGAGES]
G1 INTENSITY 0:15 1.0 TIMESERIES RAIN
[SUBCATCHMENTS]
A1 G1 J1 5 50 500 0.5 0
[SUBAREAS]
A1 0.01 0.1 1 2 25
[INFILTRATION]
A1 3 0.5 4 7 0
[PATTERNS]
DAY HOURLY 0.5 1 1.5
WEEK DAILY 0.5 1 1 1 1 1 0.5
[CURVES]
AREA STORAGE 0 50 3 80
LIFT PUMP4 0 0.1 3 0.2
SEA TIDAL 0 8 12 9
[TIMESERIES]
RAIN 0:00 5 0:15 10
[CONTROLS]
RULE FILL
IF NODE S1 DEPTH > 2
THEN PUMP P1 STATUS = ON
";

const TABLES: [Lines; 51] = [
    marks::TITLES,
    marks::SECTION_LINES,
    marks::TOKENS,
    options::WORDS,
    options::NUMBERS,
    options::TIMES,
    options::UNUSED,
    nodes::JUNCTIONS,
    nodes::FREE_OUTFALLS,
    nodes::NORMAL_OUTFALLS,
    nodes::FIXED_OUTFALLS,
    nodes::TIDAL_OUTFALLS,
    nodes::SERIES_OUTFALLS,
    nodes::TABULAR_STORAGES,
    nodes::FUNCTIONAL_STORAGES,
    links::CONDUITS,
    links::CONDUIT_NAMES,
    links::PUMPS,
    links::ORIFICES,
    links::ORIFICE_NAMES,
    links::WEIRS,
    links::NOTCHES,
    links::WEIR_NAMES,
    links::LOSSES,
    sections::OPEN_RECTANGLES,
    sections::CLOSED_RECTANGLES,
    sections::TRIANGLES,
    sections::TRAPEZOIDS,
    sections::CIRCLES,
    series::CURVES,
    series::CURVES_THAT_GO_ON,
    series::TIME_SERIES,
    series::SERIES_THAT_GO_ON,
    series::PATTERNS,
    series::PATTERNS_THAT_GO_ON,
    series::INFLOWS,
    series::DRY_INFLOWS,
    rain::GAGES,
    rain::SUBCATCHMENTS,
    rain::SUBCATCHMENT_NAMES,
    rain::SUBAREAS,
    rain::HORTON,
    rain::CURVE_NUMBERS,
    rain::EVAPORATION,
    rules::NAMES,
    rules::BARE_NAMES,
    rules::TESTS,
    rules::MOMENTS,
    rules::ACTIONS,
    rules::ENDS,
    rules::PRIORITIES,
];

fn tables() -> [Lines; 51] {
    TABLES
}

// The words of a fault, by its number.
fn words_of(number: &str) -> &'static str {
    match number {
        "171" => "curve out of order",
        "173" => "series out of order",
        "203" => "too few items",
        "205" => "invalid keyword",
        "207" => "duplicate name",
        "209" => "undefined name",
        "211" => "invalid number",
        "213" => "invalid date or time",
        "217" => "rule clause out of sequence",
        "401" => "not in this profile",
        "402" => "over a limit",
        _ => "",
    }
}

// The report of one fault, of a number and a token, on a line.
fn refused(alloc: Global, fault: &str, place: usize) -> Result<String, AllocError> {
    let (number, token) = fault.split_once(' ').unwrap_or((fault, ""));
    let words = words_of(number);
    let gap = if token.is_empty() { "" } else { " " };
    format!(in alloc;
        "SWMM5-FX REPORT\n\nInput Faults\nERROR {number} line {place}: {words}{gap}{token}\n"
    )
}

// The input with one line of a table.
fn input_with(alloc: Global, lines: &Lines, line: &str) -> Result<String, AllocError> {
    format!(in alloc; "{TOWN}{}\n{line}\n{}\n", lines.above, lines.below)
}

// The place of that line in its input, from 1.
fn place_in(lines: &Lines) -> usize {
    let above = TOWN.lines().count();
    above
        .saturating_add(lines.above.lines().count())
        .saturating_add(1)
}

// Whether an input with a line has what the table says: it is accepted, or its report is that of the line's one fault.
fn is_met(alloc: Global, lines: &Lines, row: &str) -> Result<bool, OutOfMemory> {
    let Some((fault, line)) = row.split_once('|') else {
        return Ok(row.trim().is_empty());
    };
    let fault = fault.trim();
    let input = input_with(alloc, lines, line.trim())?;
    let ran = check_over(alloc, input.as_bytes(), &LARGE_PIECES)?;
    if fault == "good" {
        return Ok(ran.answer == Ok(Status::Done));
    }
    let report = refused(alloc, fault, place_in(lines))?;
    Ok(ran.answer == Ok(Status::Refused) && ran.report.held() == report.as_bytes())
}

#[test]
fn each_item_is_good_or_at_fault(rt: HostRuntime) -> Result<(), Fail> {
    for lines in tables().iter() {
        for row in lines.rows.lines() {
            let met = is_met(rt.alloc(), lines, row)?;
            assert!(rt; met, "{row}");
        }
    }
    Ok(())
}
