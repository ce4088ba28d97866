// The reports of an input that is refused.
ghost use Rattle.std.specs.Prelude.{◌≡◌, ◌∷◌, [], codes};
ghost use Rattle.fault_ports.specs.Causes.{HasCause};
ghost use Rattle.fault_ports.specs.Output.{Puts};
ghost use Rattle.report_port.specs.Adding.{Adds};
ghost use Rattle.report_writer.specs.FaultReports.{after_blank, fault_tail, fault_words, input_too_long_report};
ghost use Rattle.report_writer.specs.FaultReports.{line_fault_line, line_faults_report};
ghost use Rattle.report_writer.specs.FaultReports.{project_fault_line, project_faults_report};

use crate::numbers::add_number;
use fault_ports::{Failed, Sink};
use net_types::{FaultKind, LineFault, List, ProjectFault};
use report_port::Report;

const HEADING: &[u8] = b"SWMM5-FX REPORT\n\nInput Faults\n";

/// Puts the report of these faults of lines, in their order. Each line of it has the fault's number, the line, what
/// the fault says, and the token as its bytes are; an empty token ends the line without a blank.
pub fn put_line_faults<W: Sink>(to: &mut W, faults: &List<LineFault>) -> Result<(), Failed>
    ensures bytes { Puts (W.held to.old) (W.held to.new) (line_faults_report faults.now) result }
    ensures cause { HasCause (W.faults to.old) (W.faults to.new) result }
{
    let mut report = Report::new(to);
    add_line_faults(&mut report, faults);
    report.end()
}

/// Puts the report of these faults of a project, in their order. Each line of it has the fault's number, what the
/// fault says, and the object's name; an empty name ends the line without a blank.
pub fn put_project_faults<W: Sink>(to: &mut W, faults: &List<ProjectFault>) -> Result<(), Failed>
    ensures bytes { Puts (W.held to.old) (W.held to.new) (project_faults_report faults.now) result }
    ensures cause { HasCause (W.faults to.old) (W.faults to.new) result }
{
    let mut report = Report::new(to);
    add_project_faults(&mut report, faults);
    report.end()
}

/// Puts the report of an input that has more bytes than an input may have.
#[tactic(auto, unfolding(crate::specs::FaultReports::input_too_long_report))]
pub fn put_input_too_long<W: Sink>(to: &mut W) -> Result<(), Failed>
    ensures bytes { Puts (W.held to.old) (W.held to.new) input_too_long_report result }
    ensures cause { HasCause (W.faults to.old) (W.faults to.new) result }
{
    let mut report = Report::new(to);
    report.add(b"SWMM5-FX REPORT\n\nInput Faults\nERROR 402 input longer than 33554432 bytes\n");
    report.end()
}

/// The report of a project without an outfall, as an input of no bytes has it, byte for byte.
pub fn empty_input_report()
    ensures { project_faults_report (record { number = 145; name = [] } ∷ [])
        ≡ codes "SWMM5-FX REPORT\n\nInput Faults\nERROR 145: no outfall\n" }
{}

fn add_line_faults<W: Sink>(report: &mut Report<'_, W>, faults: &List<LineFault>)
    ensures { Adds report.old report.new (line_faults_report faults.now) }
{
    report.add(HEADING);
    for fault in faults.as_slice() {
        add_line_fault(report, fault);
    }
}

fn add_project_faults<W: Sink>(report: &mut Report<'_, W>, faults: &List<ProjectFault>)
    ensures { Adds report.old report.new (project_faults_report faults.now) }
{
    report.add(HEADING);
    for fault in faults.as_slice() {
        add_project_fault(report, fault);
    }
}

fn add_line_fault<W: Sink>(report: &mut Report<'_, W>, fault: &LineFault)
    ensures { Adds report.old report.new (line_fault_line fault.now) }
{
    report.add(b"ERROR ");
    add_number(report, &fault.number);
    report.add(b" line ");
    add_number(report, &fault.line);
    add_fault_tail(report, fault.number, fault.token.as_slice());
}

fn add_project_fault<W: Sink>(report: &mut Report<'_, W>, fault: &ProjectFault)
    ensures { Adds report.old report.new (project_fault_line fault.now) }
{
    report.add(b"ERROR ");
    add_number(report, &fault.number);
    add_fault_tail(report, fault.number, fault.name.as_slice());
}

// Adds what the number of a fault says, the token or name at fault, and the end of the line.
fn add_fault_tail<W: Sink>(report: &mut Report<'_, W>, number: u32, text: &[u8])
    ensures { Adds report.old report.new (fault_tail (fault_words number) text.now) }
{
    report.add(b": ");
    report.add(fault_words(number));
    add_after_blank(report, text);
    report.add(b"\n");
}

// Adds a text behind a blank, or nothing where it is empty.
fn add_after_blank<W: Sink>(report: &mut Report<'_, W>, text: &[u8])
    ensures { Adds report.old report.new (after_blank text.now) }
{
    match text {
        [] => {}
        _ => {
            report.add(b" ");
            report.add(text);
        }
    }
}

// What the number of a fault says.
fn fault_words(number: u32) -> &'static [u8]
    ensures { result.now ≡ fault_words number }
{
    FaultKind::of_number(number).words()
}
