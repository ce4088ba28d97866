// The volumes and the counts of a whole run.
ghost use Rattle.std.specs.Prelude.{◌*◌, ◌^◌};
ghost use Rattle.report_port.specs.Adding.{Adds};
ghost use Rattle.report_writer.specs.LoadSections.{runoff_section};
ghost use Rattle.report_writer.specs.ReportSections.{continuity_section, steps_section};
ghost use Rattle.runoff.specs.RunoffStep.{HasVolumesWithin};

use crate::counts::RunCounts;
use crate::numbers::add_number;
use fault_ports::Sink;
use net_types::StepAccount;
use report_port::Report;
use runoff::SubStep;

// Adds the volumes of a run.
pub(crate) fn add_continuity<W: Sink>(report: &mut Report<'_, W>, total: &StepAccount)
    ensures { Adds report.old report.new (continuity_section total.now) }
{
    report.add(b"\nFlow Routing Continuity (mm3)\nInflow ");
    add_number(report, &total.inflow);
    report.add(b"\nOutfall ");
    add_number(report, &total.outfall);
    report.add(b"\nFlooding ");
    add_number(report, &total.flooding);
    report.add(b"\nStorage Change ");
    add_number(report, &total.storage);
    report.add(b"\nError ");
    add_number(report, &total.error);
    report.add(b"\n");
}

// Adds what became of the rain on all subcatchments, and what is missing or too much.
pub(crate) fn add_runoff<W: Sink>(report: &mut Report<'_, W>, total: &SubStep)
    requires { HasVolumesWithin (10 ^ 37) total.now }
    ensures { Adds report.old report.new (runoff_section total.now) }
{
    let missing = total.rain - total.infil - total.runoff - total.stored;
    report.add(b"\nRunoff Quantity Continuity (mm3)\nRain ");
    add_number(report, &total.rain);
    report.add(b"\nInfiltration ");
    add_number(report, &total.infil);
    report.add(b"\nRunoff ");
    add_number(report, &total.runoff);
    report.add(b"\nStorage Change ");
    add_number(report, &total.stored);
    report.add(b"\nError ");
    add_number(report, &missing);
    report.add(b"\n");
}

// Adds the counts of a run, and the end of the report.
pub(crate) fn add_counts<W: Sink>(report: &mut Report<'_, W>, counts: &RunCounts)
    ensures { Adds report.old report.new (steps_section counts.now) }
{
    report.add(b"\nRouting Steps\nSteps ");
    add_number(report, &counts.steps);
    report.add(b"\nTrials ");
    add_number(report, &counts.trials);
    report.add(b"\nNot Converged ");
    add_number(report, &counts.unsettled);
    report.add(b"\nEnd of report\n");
}
