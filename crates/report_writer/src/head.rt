// The head of the report of a run.
ghost use Rattle.std.specs.Prelude.{◌≡◌, pos};
ghost use Rattle.std.specs.Ordering.{int_eq};
ghost use Rattle.fault_ports.specs.Causes.{HasCause};
ghost use Rattle.fault_ports.specs.Output.{Puts};
ghost use Rattle.report_port.specs.Adding.{Adds};
ghost use Rattle.report_writer.specs.DateTexts.{HasCalendarDates};
ghost use Rattle.report_writer.specs.ReportSections.{times_lines, units_name, variable_line};
ghost use Rattle.report_writer.specs.RunReport.{head_of};
ghost use Rattle.report_writer.specs.Texts.{lines_of};

use crate::dates::{add_date, add_time};
use crate::numbers::{add_number, add_value};
use fault_ports::{Failed, Sink};
use inp_values::{Quantity, unit_of};
use net_types::{FlowUnits, List, Options, Project, Text};
use report_port::Report;

/// Puts the head of the report of a run: the title lines, the warnings, and the options of the run, up to the reporting
/// step. Start and end of the run lie in the years 1900 to 2200 (this project's profile).
pub fn put_head<W: Sink>(to: &mut W, project: &Project) -> Result<(), Failed>
    requires dates { HasCalendarDates project.now.options }
    ensures bytes { Puts (W.held to.old) (W.held to.new) (head_of project.now) result }
    ensures cause { HasCause (W.faults to.old) (W.faults to.new) result }
{
    let mut report = Report::new(to);
    add_head(&mut report, project);
    report.end()
}

/// Adds the head of the report of a run, as [`put_head`] puts it.
pub fn add_head<W: Sink>(report: &mut Report<'_, W>, project: &Project)
    requires dates { HasCalendarDates project.now.options }
    ensures { Adds report.old report.new (head_of project.now) }
{
    report.add(b"SWMM5-FX REPORT\n");
    add_lines(report, &project.title);
    add_lines(report, &project.warnings);
    add_times(report, &project.options);
    add_variable(report, &project.options);
    report.add(b"Report Step ");
    add_number(report, &project.options.report_ms);
    report.add(b" ms\n");
}

// Adds each text on a line of its own.
fn add_lines<W: Sink>(report: &mut Report<'_, W>, texts: &List<Text>)
    ensures { Adds report.old report.new (lines_of texts.now) }
{
    for text in texts.as_slice() {
        report.add(text.as_slice());
        report.add(b"\n");
    }
}

// Adds the flow units, when the run starts and ends, and the routing step.
fn add_times<W: Sink>(report: &mut Report<'_, W>, options: &Options)
    requires { HasCalendarDates options.now }
    ensures { Adds report.old report.new (times_lines options.now) }
{
    report.add(b"\nAnalysis Options\nFlow Units ");
    add_units(report, &options.units);
    report.add(b"\nStart ");
    add_date(report, &options.start);
    report.add(b" ");
    add_time(report, &options.start);
    report.add(b"\nEnd ");
    add_date(report, &options.finish);
    report.add(b" ");
    add_time(report, &options.finish);
    report.add(b"\nRouting Step ");
    add_number(report, &options.step_ms);
    report.add(b" ms\n");
}

// Adds the part of the least travel time that a step of variable length has, in other runs nothing.
fn add_variable<W: Sink>(report: &mut Report<'_, W>, options: &Options)
    ensures { Adds report.old report.new (variable_line options.now) }
{
    if is_constant(options) {
        return;
    }
    let unit = unit_of(options.units, Quantity::Coefficient);
    report.add(b"Variable Step ");
    add_value(report, &options.variable6, &unit);
    report.add(b"\n");
}

// Whether all steps have the length of the options.
fn is_constant(options: &Options) -> bool
    ensures { result ≡ int_eq options.now.variable6 (pos 0) }
{
    options.variable6 == 0
}

fn add_units<W: Sink>(report: &mut Report<'_, W>, units: &FlowUnits)
    ensures { Adds report.old report.new (units_name units.now) }
{
    report.add(name_of(units));
}

fn name_of(units: &FlowUnits) -> &'static [u8]
    ensures { result.now ≡ units_name units.now }
{
    match units {
        FlowUnits::Cfs => b"CFS",
        FlowUnits::Gpm => b"GPM",
        FlowUnits::Mgd => b"MGD",
        FlowUnits::Cms => b"CMS",
        FlowUnits::Lps => b"LPS",
        FlowUnits::Mld => b"MLD",
    }
}
