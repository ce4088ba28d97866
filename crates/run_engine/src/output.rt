// The report of a run.
ghost use Rattle.std.specs.Prelude.{◌≡◌, eqb, length, pos, if◌then◌else◌, []};
ghost use Rattle.fault_ports.specs.Causes.{HasCause};
ghost use Rattle.fault_ports.specs.Output.{Puts};
ghost use Rattle.fixed_num.specs.Ranges.{IsBetween};
ghost use Rattle.report_port.specs.Adding.{Adds};
ghost use Rattle.report_writer.specs.StepLines.{step_line};
ghost use Rattle.run_engine.specs.Report.{tail_with};
ghost use Rattle.run_engine.specs.StepLines.{reaches_report, reports_at};
ghost use Rattle.summaries.specs.Loads.{AreLoadsOf};
ghost use Rattle.summaries.specs.Runoffs.{HaveSmallSums};

use continuity::RunAccount;
use fault_ports::{Failed, Sink};
use net_types::{Options, Project, StepAccount};
use report_port::Report;
use report_writer::{RunCounts, RunFigures, add_step_line, put_whole_tail};
use summaries::{OutfallSums, SubSums, Summaries};

// Adds the line of the last state, where steps were made since the last step line.
pub(crate) fn add_last_line<W: Sink>(report: &mut Report<'_, W>, moment: &i64, since: &RunAccount)
    ensures { Adds report.old report.new (if eqb since.now.steps 0 then [] else step_line moment.now since.now.total) }
{
    if since.is_empty() {
        return;
    }
    add_step_line(report, moment, &since.total());
}

// Puts the figures of a run, which it came to.
pub(crate) fn put_figures<W: Sink>(
    to: &mut W,
    project: &Project,
    total: &StepAccount,
    sums: &Summaries,
    outfalls: &OutfallSums,
    subs: &SubSums,
    counts: &RunCounts,
) -> Result<(), Failed>
    requires outfalls { AreLoadsOf (length project.now.nodes) outfalls.now }
    requires subs { HaveSmallSums subs.now.subs }
    ensures bytes { Puts (W.held to.old) (W.held to.new)
        (tail_with project.now total.now sums.now.nodes outfalls.now.outfalls sums.now.links subs.now.subs counts.now)
        result }
    ensures cause { HasCause (W.faults to.old) (W.faults to.new) result }
{
    let runoff = subs.total();
    let figures = RunFigures {
        total,
        nodes: sums.nodes().as_slice(),
        outfalls: outfalls.outfalls().as_slice(),
        links: sums.links().as_slice(),
        subs: subs.subs().as_slice(),
        runoff: &runoff,
        counts,
    };
    put_whole_tail(to, project, &figures)
}

// Whether some multiple of the report step is reached from one moment to another, both in ms since the start of the
// run.
pub(crate) fn reaches_report(options: &Options, before: i64, after: i64) -> bool
    requires { IsBetween (pos 1_000) options.now.report_ms (pos 86_400_000) }
    ensures { result ≡ reaches_report options.now before after }
{
    reports(options, before) < reports(options, after)
}

// How many multiples of the report step a moment has reached.
fn reports(options: &Options, moment: i64) -> u64
    requires { IsBetween (pos 1_000) options.now.report_ms (pos 86_400_000) }
    ensures { result ≡ reports_at options.now moment }
{
    moment.unsigned_abs() / options.report_ms.unsigned_abs()
}
