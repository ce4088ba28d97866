// The report of an input that is accepted and not run.
ghost use Rattle.fault_ports.specs.Causes.{HasCause};
ghost use Rattle.fault_ports.specs.Output.{Puts};
ghost use Rattle.report_port.specs.Adding.{Adds};
ghost use Rattle.report_writer.specs.AcceptedReport.{accepted_report};

use crate::numbers::add_number;
use fault_ports::{Failed, Sink};
use net_types::Project;
use report_port::Report;

/// Puts the report of an accepted project that is not run: how many subcatchments, nodes and links it has (this
/// project's profile).
pub fn put_accepted<W: Sink>(to: &mut W, project: &Project) -> Result<(), Failed>
    ensures bytes { Puts (W.held to.old) (W.held to.new) (accepted_report project.now) result }
    ensures cause { HasCause (W.faults to.old) (W.faults to.new) result }
{
    let mut report = Report::new(to);
    add_accepted(&mut report, project);
    report.end()
}

fn add_accepted<W: Sink>(report: &mut Report<'_, W>, project: &Project)
    ensures { Adds report.old report.new (accepted_report project.now) }
{
    report.add(b"SWMM5-FX REPORT\n\nInput Accepted\nSubcatchments ");
    add_number(report, &project.subs.as_slice().len());
    report.add(b"\nNodes ");
    add_number(report, &project.nodes.as_slice().len());
    report.add(b"\nLinks ");
    add_number(report, &project.links.as_slice().len());
    report.add(b"\n");
}
