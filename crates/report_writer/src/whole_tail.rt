// All sections that follow the step lines of the report of a run.
ghost use Rattle.fault_ports.specs.Causes.{HasCause};
ghost use Rattle.fault_ports.specs.Output.{Puts};
ghost use Rattle.report_port.specs.Adding.{Adds};
ghost use Rattle.report_writer.specs.WholeTail.{FiguresFit, whole_tail_of};

use crate::counts::RunCounts;
use crate::tables::{add_floods, add_links, add_nodes, add_outfalls, add_subs};
use crate::totals::{add_continuity, add_counts, add_runoff};
use fault_ports::{Failed, Sink};
use net_types::{Project, StepAccount};
use report_port::Report;
use runoff::SubStep;
use summaries::{LinkSummary, NodeSummary, OutfallSummary, SubSummary};

/// The figures of a run: the volumes of the whole run, the summaries of nodes, outfalls, links and subcatchments, what
/// the rain became on all subcatchments, and the counts.
#[derive(Clone, Copy, Debug)]
pub struct RunFigures<'a> {
    pub total: &'a StepAccount,
    pub nodes: &'a [NodeSummary],
    pub outfalls: &'a [OutfallSummary],
    pub links: &'a [LinkSummary],
    pub subs: &'a [SubSummary],
    pub runoff: &'a SubStep,
    pub counts: &'a RunCounts,
}

/// Puts all sections that follow the step lines of the report of a run: volumes, depths, floods, outfalls, flows,
/// subcatchments, runoff and counts. Lines stand in the order of the project; lengths and flows have six places in the
/// user's units, moments are in ms since the start and volumes in mm³ (this project's profile).
pub fn put_whole_tail<W: Sink>(
    to: &mut W,
    project: &Project,
    figures: &RunFigures<'_>,
) -> Result<(), Failed>
    requires { FiguresFit project.now figures.now }
    ensures bytes { Puts (W.held to.old) (W.held to.new) (whole_tail_of project.now figures.now) result }
    ensures cause { HasCause (W.faults to.old) (W.faults to.new) result }
{
    let mut report = Report::new(to);
    add_whole_tail(&mut report, project, figures);
    report.end()
}

fn add_whole_tail<W: Sink>(report: &mut Report<'_, W>, project: &Project, figures: &RunFigures<'_>)
    requires { FiguresFit project.now figures.now }
    ensures { Adds report.old report.new (whole_tail_of project.now figures.now) }
{
    add_continuity(report, figures.total);
    add_nodes(report, project, figures.nodes);
    add_floods(report, project, figures.nodes);
    add_outfalls(report, project, figures.outfalls);
    add_links(report, project, figures.links);
    add_subs(report, project, figures.subs);
    add_runoff(report, figures.runoff);
    add_counts(report, figures.counts);
}
