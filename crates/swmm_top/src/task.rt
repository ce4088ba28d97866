// The tasks of commands.
ghost use Rattle.std.specs.Prelude.{◌≡◌, ◌≢◌, ◌⊎◌, ℕ, List as Sequence, Option as Maybe, true, false};
ghost use Rattle.std.specs.Prelude.{IfOk, IfSome, OnErr, IsErrOf};
ghost use Rattle.command_words.specs.declared.command.Task.{Task as TaskOf};
ghost use Rattle.command_words.specs.declared.command.Task.TheVariants as DataTask;
ghost use Rattle.swmm_top.specs.Answers.{BeforeWriting, FailsOnlyAt, Leaves, ReadsHotstart, ReadsInput};
ghost use Rattle.swmm_top.specs.Outcome.{Outcome, IsInputOutcome, input_for};
ghost use Rattle.swmm_top.specs.Taking.{EndsRun};
ghost use Rattle.swmm_top.specs.Taking.{GivesWork};
ghost use Rattle.swmm_top.specs.Uses.{read_of, work_keeps, work_of, work_reads, work_resumes};

use crate::demo::run_sample;
use crate::fault::{Port, TopFault};
use crate::run::run_project;
use crate::status::Status;
use crate::taken::{Taken, ended, take_source};
use crate::work::Work;
use fault_ports::{Sink, Source};
use report_writer::put_accepted;
use std::alloc::Global;

/// Does the work of a command with one worker.
pub(crate) fn do_work<S: Source, H: Source, W: Sink, K: Sink>(
    alloc: Global,
    work: Work,
    inp: &mut S,
    hot_in: &mut H,
    rpt: &mut W,
    hot_out: &mut K,
) -> Result<Status, TopFault>
    ensures outcome { (task : TaskOf) → work_of task ≡ work → GivesWork task (S.left inp.old) (H.left hot_in.old)
        (W.held rpt.old) (W.held rpt.new) (K.held hot_out.old) (K.held hot_out.new) result }
    ensures no_usage { IfOk result (λ status. status ≢ Status.Usage) }
    ensures read_input { FailsOnlyAt (TopFault.Read Port.Inp) (S.faults inp.old) (S.faults inp.new) result }
    ensures read_hotstart { FailsOnlyAt (TopFault.Read Port.HotIn) (H.faults hot_in.old) (H.faults hot_in.new) result }
    ensures ends { EndsRun W.faults rpt.old rpt.new K.faults hot_out.old hot_out.new result }
    ensures faults { OnErr result (IsErrOf result TopFault.OutOfMemory
        ⊎ (IsErrOf result (TopFault.Read Port.Inp) ⊎ (IsErrOf result (TopFault.Read Port.HotIn)
        ⊎ (IsErrOf result (TopFault.Write Port.Rpt) ⊎ IsErrOf result (TopFault.Write Port.HotOut))))) }
    ensures input_to_end { work_reads work ≡ true → ReadsInput (S.left inp.old) (S.left inp.new) result }
    ensures hotstart_to_end { work_resumes work ≡ true
        → ReadsHotstart (H.left hot_in.old) (H.left hot_in.new) result }
    ensures input_unused { work_reads work ≡ false → inp.new ≡ inp.old }
    ensures hotstart_unused { work_resumes work ≡ false → hot_in.new ≡ hot_in.old }
    ensures hotstart_unkept { work_keeps work ≡ false → hot_out.new ≡ hot_out.old }
{
    match work {
        Work::Run { resumes, keeps } => run_input(alloc, resumes, keeps, inp, hot_in, rpt, hot_out),
        Work::Check => check_input(alloc, inp, rpt),
        Work::Demo { number } => run_sample(alloc, number, rpt),
    }
}

/// Checks the input of a source, and says how large its network is.
pub(crate) fn check_input<S: Source, W: Sink>(
    alloc: Global,
    inp: &mut S,
    rpt: &mut W,
) -> Result<Status, TopFault>
    ensures outcome { (name hotstart : Sequence ℕ) (hot : Maybe (Sequence ℕ)) → IfSome (S.left inp.old) (λ input.
        (given : Outcome) × IsInputOutcome (DataTask.Check name) input hotstart given
        × Leaves given (W.held rpt.old) (W.held rpt.new) hot hot result) }
    ensures no_usage { IfOk result (λ status. status ≢ Status.Usage) }
    ensures read_input { FailsOnlyAt (TopFault.Read Port.Inp) (S.faults inp.old) (S.faults inp.new) result }
    ensures write_report { FailsOnlyAt (TopFault.Write Port.Rpt) (W.faults rpt.old) (W.faults rpt.new) result }
    ensures faults { OnErr result (IsErrOf result TopFault.OutOfMemory
        ⊎ (IsErrOf result (TopFault.Read Port.Inp) ⊎ IsErrOf result (TopFault.Write Port.Rpt))) }
    ensures to_end { ReadsInput (S.left inp.old) (S.left inp.new) result }
    ensures unwritten { BeforeWriting result (rpt.new ≡ rpt.old) }
{
    match take_source(alloc, inp, rpt) {
        Ok(Taken::Accepted(project)) => ended(Status::Done, put_accepted(rpt, &project)),
        Ok(Taken::Refused) => Ok(Status::Refused),
        Err(fault) => Err(fault),
    }
}

// Makes the run of the input of a source.
fn run_input<S: Source, H: Source, W: Sink, K: Sink>(
    alloc: Global,
    resumes: bool,
    keeps: bool,
    inp: &mut S,
    hot_in: &mut H,
    rpt: &mut W,
    hot_out: &mut K,
) -> Result<Status, TopFault>
    ensures outcome { (task : TaskOf) → work_of task ≡ Work.Run resumes keeps → IfSome (S.left inp.old) (λ input.
        IfSome (read_of resumes (H.left hot_in.old)) (λ hotstart.
        (given : Outcome) × IsInputOutcome task input hotstart given
        × Leaves given (W.held rpt.old) (W.held rpt.new) (K.held hot_out.old) (K.held hot_out.new) result)) }
    ensures read_input { FailsOnlyAt (TopFault.Read Port.Inp) (S.faults inp.old) (S.faults inp.new) result }
    ensures read_hotstart { FailsOnlyAt (TopFault.Read Port.HotIn) (H.faults hot_in.old) (H.faults hot_in.new) result }
    ensures ends { EndsRun W.faults rpt.old rpt.new K.faults hot_out.old hot_out.new result }
    ensures faults { OnErr result (IsErrOf result TopFault.OutOfMemory
        ⊎ (IsErrOf result (TopFault.Read Port.Inp) ⊎ (IsErrOf result (TopFault.Read Port.HotIn)
        ⊎ (IsErrOf result (TopFault.Write Port.Rpt) ⊎ IsErrOf result (TopFault.Write Port.HotOut))))) }
    ensures input_to_end { ReadsInput (S.left inp.old) (S.left inp.new) result }
    ensures hotstart_to_end { resumes ≡ true → ReadsHotstart (H.left hot_in.old) (H.left hot_in.new) result }
    ensures hotstart_unused { resumes ≡ false → hot_in.new ≡ hot_in.old }
    ensures hotstart_unkept { keeps ≡ false → hot_out.new ≡ hot_out.old }
{
    match take_source(alloc, inp, rpt) {
        Ok(Taken::Accepted(project)) => {
            run_project(alloc, resumes, keeps, project, hot_in, rpt, hot_out)
        }
        Ok(Taken::Refused) => Ok(Status::Refused),
        Err(fault) => Err(fault),
    }
}
