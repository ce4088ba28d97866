// What all lines say of names, and the tables that names stand for.
ghost use Rattle.std.specs.Prelude.{◌≡◌, [], IfOk};
ghost use Rattle.fixed_num.specs.Ranges.{IsMoment};
ghost use Rattle.inp_lines.specs.Faults.{cut};
ghost use Rattle.inp_lines.specs.Gather.{gather};
ghost use Rattle.inp_lines.specs.Order.{Rise};
ghost use Rattle.inp_forms.specs.Context.{context_of};
ghost use Rattle.inp_series.specs.CurveLines.{curves_of};
ghost use Rattle.inp_series.specs.PatternLines.{patterns_of};
ghost use Rattle.inp_series.specs.SeriesLines.{series_of};
ghost use Rattle.inp_reader.specs.Known.{context_in};
ghost use Rattle.inp_reader.specs.Tables.{table_fault};

use inp_forms::Known;
use inp_hydrology::{number_gages, number_subs};
use inp_lines::{Line, merge_faults};
use inp_network::{number_links, number_nodes, read_link_sections};
use inp_series::{curve_kinds, read_curves, read_patterns, read_series};
use net_types::{Curve, FlowUnits, LineFault, List, OutOfMemory, Pattern, Series};
use std::alloc::Global;

/// The curves, time series and time patterns of an input, and the first hundred faults of their lines.
#[derive(Debug, Drop)]
pub(crate) struct Tables {
    pub(crate) curves: List<Curve>,
    pub(crate) series: List<Series>,
    pub(crate) patterns: List<Pattern>,
    pub(crate) faults: List<LineFault>,
}

/// What all lines say of names, and the tables that names stand for, for a run that starts at this moment, in ms from
/// 1970-01-01: a name stands for the object whose lines define it, wherever these are (User's Manual, sections
/// [CURVES], [TIMESERIES] and [PATTERNS]).
pub(crate) fn known_of<'a>(
    alloc: Global,
    units: FlowUnits,
    start: i64,
    lines: &'a List<Line>,
) -> Result<(Known<'a>, Tables), OutOfMemory>
    requires moment { IsMoment start }
    requires rise { Rise 0 lines.now }
    ensures known { IfOk result (λ read. context_of read.0 ≡ context_in units start lines.now) }
    ensures curves { IfOk result (λ read. read.1.curves ≡ curves_of lines.now) }
    ensures series { IfOk result (λ read. read.1.series ≡ series_of start lines.now) }
    ensures patterns { IfOk result (λ read. read.1.patterns ≡ patterns_of lines.now) }
    ensures faults { IfOk result (λ read. read.1.faults ≡ cut (gather (table_fault start) [] lines.now)) }
{
    let series = read_series(alloc, start, lines)?;
    let curves = read_curves(alloc, lines)?;
    let patterns = read_patterns(alloc, lines)?;
    let mut faults = series.faults;
    merge_faults(alloc, &mut faults, &curves.faults)?;
    merge_faults(alloc, &mut faults, &patterns.faults)?;
    let known = Known {
        units,
        nodes: number_nodes(alloc, lines)?,
        links: number_links(alloc, lines)?,
        link_sections: read_link_sections(alloc, lines)?,
        subs: number_subs(alloc, lines)?,
        gages: number_gages(alloc, lines)?,
        series: series.names,
        patterns: patterns.names,
        curves: curves.names,
        curve_kinds: curve_kinds(alloc, &curves.states)?,
    };
    let tables = Tables {
        curves: curves.records,
        series: series.records,
        patterns: patterns.records,
        faults,
    };
    Ok((known, tables))
}
