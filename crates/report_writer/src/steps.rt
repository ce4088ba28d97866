// The step lines of the report of a run.
ghost use Rattle.fault_ports.specs.Causes.{HasCause};
ghost use Rattle.fault_ports.specs.Output.{Puts};
ghost use Rattle.report_port.specs.Adding.{Adds};
ghost use Rattle.report_writer.specs.StepLines.{AreSmallLosses, step_line, steps_heading};

use crate::numbers::add_number;
use fault_ports::{Failed, Sink};
use net_types::StepAccount;
use report_port::Report;

/// Adds the heading of the step lines, which follows the head of the report (this project's profile).
pub fn add_steps_heading<W: Sink>(report: &mut Report<'_, W>)
    ensures { Adds report.old report.new steps_heading }
{
    report.add(b"\nStep Continuity (mm3)\n");
}

/// Puts the step line of a moment (ms since the start) with the account since the line before, whose volumes at
/// outfalls and of floods are within 10^37 mm³ (this project's profile).
pub fn put_step_line<W: Sink>(to: &mut W, moment: i64, account: &StepAccount) -> Result<(), Failed>
    requires { AreSmallLosses account.now }
    ensures bytes { Puts (W.held to.old) (W.held to.new) (step_line moment account.now) result }
    ensures cause { HasCause (W.faults to.old) (W.faults to.new) result }
{
    let mut report = Report::new(to);
    add_step_line(&mut report, &moment, account);
    report.end()
}

/// Adds the step line of a moment, as [`put_step_line`] puts it.
pub fn add_step_line<W: Sink>(report: &mut Report<'_, W>, moment: &i64, account: &StepAccount)
    requires { AreSmallLosses account.now }
    ensures { Adds report.old report.new (step_line moment.now account.now) }
{
    let losses = account.outfall + account.flooding;
    add_number(report, moment);
    report.add(b" ");
    add_number(report, &account.inflow);
    report.add(b" ");
    add_number(report, &losses);
    report.add(b" ");
    add_number(report, &account.storage);
    report.add(b" ");
    add_number(report, &account.error);
    report.add(b"\n");
}
