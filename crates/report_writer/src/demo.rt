// The report of the run of a sample.
ghost use Rattle.fault_ports.specs.Causes.{HasCause};
ghost use Rattle.fault_ports.specs.Output.{Puts};
ghost use Rattle.report_port.specs.Adding.{Adds};
ghost use Rattle.report_writer.specs.DemoReport.{demo_report};

use crate::counts::RunCounts;
use crate::numbers::add_number;
use crate::totals::{add_continuity, add_counts};
use fault_ports::{Failed, Sink};
use net_types::StepAccount;
use report_port::Report;

/// Puts the report of the run of a sample: its number, the volumes of the run in mm³, and its counts.
///
/// Source: this project's profile.
pub fn put_demo<W: Sink>(
    to: &mut W,
    number: u32,
    total: &StepAccount,
    counts: &RunCounts,
) -> Result<(), Failed>
    ensures bytes { Puts (W.held to.old) (W.held to.new) (demo_report number total.now counts.now) result }
    ensures cause { HasCause (W.faults to.old) (W.faults to.new) result }
{
    let mut report = Report::new(to);
    add_demo(&mut report, number, total, counts);
    report.end()
}

fn add_demo<W: Sink>(
    report: &mut Report<'_, W>,
    number: u32,
    total: &StepAccount,
    counts: &RunCounts,
)
    ensures { Adds report.old report.new (demo_report number total.now counts.now) }
{
    report.add(b"SWMM5-FX DEMO ");
    add_number(report, &number);
    report.add(b"\n");
    add_continuity(report, total);
    add_counts(report, counts);
}
