// The sections of the report of a run that have a line for each node, outfall, link or subcatchment.
ghost use Rattle.std.specs.Prelude.{◌≡◌, ◌<◌, length, pos, int_lt};
ghost use Rattle.std.specs.List.{All};
ghost use Rattle.fixed_num.specs.Units.{IsUnit};
ghost use Rattle.report_port.specs.Adding.{Adds};
ghost use Rattle.report_writer.specs.LoadSections.{flood_line, flood_section, load_line, outfall_line};
ghost use Rattle.report_writer.specs.LoadSections.{outfall_section, sub_line, sub_section};
ghost use Rattle.report_writer.specs.SummarySections.{link_section, node_section, peak_line};

use crate::numbers::{add_number, add_value};
use fault_ports::Sink;
use fixed_num::Unit;
use inp_values::{Quantity, unit_of};
use net_types::{Node, Project, Sub, Text};
use report_port::Report;
use summaries::{LinkSummary, NodeSummary, OutfallSummary, SubSummary};

// Adds the section of the nodes.
pub(crate) fn add_nodes<W: Sink>(
    report: &mut Report<'_, W>,
    project: &Project,
    summaries: &[NodeSummary],
)
    ensures { Adds report.old report.new
        (node_section project.now.options.units project.now.nodes summaries.now) }
{
    report.add(b"\nNode Depth Summary\n");
    let unit = unit_of(project.options.units, Quantity::Elevation);
    let nodes = project.nodes.as_slice();
    let count = nodes.len().min(summaries.len());
    for n in 0..count {
        let node = &nodes[n];
        let sum = &summaries[n];
        add_peak(
            report,
            &unit,
            &node.name,
            &sum.max_depth,
            &sum.at,
            &sum.last_head,
        );
    }
}

// Adds the section of the links.
pub(crate) fn add_links<W: Sink>(
    report: &mut Report<'_, W>,
    project: &Project,
    summaries: &[LinkSummary],
)
    ensures { Adds report.old report.new
        (link_section project.now.options.units project.now.links summaries.now) }
{
    report.add(b"\nLink Flow Summary\n");
    let unit = unit_of(project.options.units, Quantity::Flow);
    let links = project.links.as_slice();
    let count = links.len().min(summaries.len());
    for n in 0..count {
        let link = &links[n];
        let sum = &summaries[n];
        add_peak(
            report,
            &unit,
            &link.name,
            &sum.max_flow,
            &sum.at,
            &sum.last_flow,
        );
    }
}

// Adds a name, its greatest value, the moment of it, and its last value.
fn add_peak<W: Sink>(
    report: &mut Report<'_, W>,
    unit: &Unit,
    name: &Text,
    most: &i64,
    at: &i64,
    last: &i64,
)
    requires { IsUnit unit.now }
    ensures { Adds report.old report.new (peak_line unit.now name.now most.now at.now last.now) }
{
    report.add(name.as_slice());
    report.add(b" ");
    add_value(report, most, unit);
    report.add(b" ");
    add_number(report, at);
    report.add(b" ");
    add_value(report, last, unit);
    report.add(b"\n");
}

// Adds the section of floods.
pub(crate) fn add_floods<W: Sink>(
    report: &mut Report<'_, W>,
    project: &Project,
    summaries: &[NodeSummary],
)
    ensures { Adds report.old report.new (flood_section project.now.nodes summaries.now) }
{
    report.add(b"\nNode Flooding Summary (mm3)\n");
    let nodes = project.nodes.as_slice();
    let count = nodes.len().min(summaries.len());
    for n in 0..count {
        add_flood(report, &nodes[n], &summaries[n]);
    }
}

// Adds the line of a node, where it was flooded.
fn add_flood<W: Sink>(report: &mut Report<'_, W>, node: &Node, summary: &NodeSummary)
    ensures { Adds report.old report.new (flood_line (node.now, summary.now)) }
{
    if !is_flooded(summary) {
        return;
    }
    report.add(node.name.as_slice());
    report.add(b" ");
    add_number(report, &summary.flooded);
    report.add(b"\n");
}

// Whether a node was flooded in some step.
fn is_flooded(summary: &NodeSummary) -> bool
    ensures { result ≡ int_lt (pos 0) summary.now.flooded }
{
    summary.flooded > 0
}

// Adds the section of outfalls. Each summary is one of a node of the project.
pub(crate) fn add_outfalls<W: Sink>(
    report: &mut Report<'_, W>,
    project: &Project,
    outfalls: &[OutfallSummary],
)
    requires { All (λ outfall. outfall.node < length project.now.nodes) outfalls.now }
    ensures { Adds report.old report.new
        (outfall_section project.now.options.units project.now.nodes outfalls.now) }
{
    report.add(b"\nOutfall Loading Summary\n");
    let unit = unit_of(project.options.units, Quantity::Flow);
    let nodes = project.nodes.as_slice();
    for outfall in outfalls {
        add_outfall(report, &unit, nodes, outfall);
    }
}

fn add_outfall<W: Sink>(
    report: &mut Report<'_, W>,
    unit: &Unit,
    nodes: &[Node],
    outfall: &OutfallSummary,
)
    requires unit { IsUnit unit.now }
    requires node { outfall.now.node < length nodes.now }
    ensures { Adds report.old report.new (outfall_line unit.now nodes.now outfall.now) }
{
    let node = &nodes[outfall.node as usize];
    add_load(report, unit, &node.name, &outfall.volume, &outfall.max_flow);
}

// Adds a name, a volume and a flow.
fn add_load<W: Sink>(
    report: &mut Report<'_, W>,
    unit: &Unit,
    name: &Text,
    volume: &i128,
    flow: &i64,
)
    requires { IsUnit unit.now }
    ensures { Adds report.old report.new (load_line unit.now name.now volume.now flow.now) }
{
    report.add(name.as_slice());
    report.add(b" ");
    add_number(report, volume);
    report.add(b" ");
    add_value(report, flow, unit);
    report.add(b"\n");
}

// Adds the section of subcatchments.
pub(crate) fn add_subs<W: Sink>(
    report: &mut Report<'_, W>,
    project: &Project,
    summaries: &[SubSummary],
)
    ensures { Adds report.old report.new
        (sub_section project.now.options.units project.now.subs summaries.now) }
{
    report.add(b"\nSubcatchment Runoff Summary (mm3)\n");
    let unit = unit_of(project.options.units, Quantity::Flow);
    let subs = project.subs.as_slice();
    let count = subs.len().min(summaries.len());
    for n in 0..count {
        add_sub(report, &unit, &subs[n], &summaries[n]);
    }
}

fn add_sub<W: Sink>(report: &mut Report<'_, W>, unit: &Unit, sub: &Sub, summary: &SubSummary)
    requires { IsUnit unit.now }
    ensures { Adds report.old report.new (sub_line unit.now (sub.now, summary.now)) }
{
    report.add(sub.name.as_slice());
    report.add(b" ");
    add_number(report, &summary.rain);
    report.add(b" ");
    add_number(report, &summary.infil);
    report.add(b" ");
    add_number(report, &summary.runoff);
    report.add(b" ");
    add_value(report, &summary.peak, unit);
    report.add(b"\n");
}
