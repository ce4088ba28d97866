// The run of a sample.
ghost use Rattle.std.specs.Prelude.{List as Sequence, Option as Maybe, ℕ, ◌≡◌, ◌≢◌, IfOk};
ghost use Rattle.command_words.specs.declared.command.Task.TheVariants as DataTask;
ghost use Rattle.project_check.specs.Faultless.{IsFaultless};
ghost use Rattle.run_engine.specs.Progress.{IsAt};
ghost use Rattle.sample_maker.specs.SampleText.{sample_text};
ghost use Rattle.swmm_top.specs.Answers.{Leaves};
ghost use Rattle.swmm_top.specs.Outcome.{Outcome, IsInputOutcome, demo_of, fresh};
ghost use Rattle.swmm_top.specs.Taking.{EndsReport};

use crate::fault::TopFault;
use crate::nowhere::Nowhere;
use crate::status::Status;
use crate::taken::{Taken, ended, take_input};
use fault_ports::Sink;
use net_types::{OutOfMemory, Project};
use report_writer::put_demo;
use run_engine::{Run, open_run};
use sample_maker::sample_text;
use std::alloc::Global;

/// Makes the run of the sample of a number, and reports what it came to.
pub(crate) fn run_sample<W: Sink>(
    alloc: Global,
    number: u32,
    rpt: &mut W,
) -> Result<Status, TopFault>
    ensures outcome { (hotstart : Sequence ℕ) (hot : Maybe (Sequence ℕ)) → (given : Outcome)
        × IsInputOutcome (DataTask.Demo number) (sample_text number) hotstart given
        × Leaves given (W.held rpt.old) (W.held rpt.new) hot hot result }
    ensures no_usage { IfOk result (λ status. status ≢ Status.Usage) }
    ensures ends { EndsReport W.faults rpt.old rpt.new result }
{
    match sample_text(alloc, number) {
        Ok(text) => run_text(alloc, number, text.as_slice(), rpt),
        Err(OutOfMemory) => Err(TopFault::OutOfMemory),
    }
}

// Makes the run of the sample of a number from its text.
fn run_text<W: Sink>(
    alloc: Global,
    number: u32,
    text: &[u8],
    rpt: &mut W,
) -> Result<Status, TopFault>
    ensures outcome { (hotstart : Sequence ℕ) (hot : Maybe (Sequence ℕ)) → (given : Outcome)
        × IsInputOutcome (DataTask.Demo number) text.now hotstart given
        × Leaves given (W.held rpt.old) (W.held rpt.new) hot hot result }
    ensures no_usage { IfOk result (λ status. status ≢ Status.Usage) }
    ensures ends { EndsReport W.faults rpt.old rpt.new result }
{
    match take_input(alloc, text, rpt) {
        Ok(Taken::Accepted(project)) => run_quietly(alloc, number, project, rpt),
        Ok(Taken::Refused) => Ok(Status::Refused),
        Err(fault) => Err(fault),
    }
}

// Makes the run of a project without a fault, and reports what it came to under a number.
fn run_quietly<W: Sink>(
    alloc: Global,
    number: u32,
    project: Project,
    rpt: &mut W,
) -> Result<Status, TopFault>
    requires { IsFaultless project }
    ensures outcome { (hot : Maybe (Sequence ℕ))
        → Leaves (demo_of number (fresh project)) (W.held rpt.old) (W.held rpt.new) hot hot result }
    ensures no_usage { IfOk result (λ status. status ≢ Status.Usage) }
    ensures ends { EndsReport W.faults rpt.old rpt.new result }
{
    match open_run(alloc, project, None) {
        Ok(run) => report_sample(number, run, rpt),
        Err(OutOfMemory) => Err(TopFault::OutOfMemory),
    }
}

// Makes all steps of a run that was just opened, with no report of them, and reports what it came to under a number.
// The sink of the steps can't fail, so the last answer never comes.
fn report_sample<W: Sink>(number: u32, run: Run, rpt: &mut W) -> Result<Status, TopFault>
    requires { IsAt run 0 }
    ensures outcome { (hot : Maybe (Sequence ℕ))
        → Leaves (demo_of number run.start) (W.held rpt.old) (W.held rpt.new) hot hot result }
    ensures no_usage { IfOk result (λ status. status ≢ Status.Usage) }
    ensures ends { EndsReport W.faults rpt.old rpt.new result }
{
    let mut run = run;
    let made = run.advance_alone(&mut Nowhere);
    let total = run.total();
    let counts = run.counts();
    drop(run);
    match made {
        Ok(()) => ended(Status::Done, put_demo(rpt, number, &total, &counts)),
        Err(_) => Err(TopFault::OutOfMemory),
    }
}
