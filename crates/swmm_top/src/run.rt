// The run of a project: from its beginning or from a hotstart, with its report and the hotstart that it keeps.
ghost use Rattle.std.specs.Prelude.{◌≡◌, ◌⊎◌, true, false, [], IfOk, IfSome, OnErr, IsErrOf, if◌then◌else◌};
ghost use Rattle.fault_ports.specs.Output.{Puts};
ghost use Rattle.hotstart.specs.HotBytes.{hot_bytes};
ghost use Rattle.hotstart.specs.HotRanges.{IsHotState};
ghost use Rattle.project_check.specs.Faultless.{IsFaultless};
ghost use Rattle.run_engine.specs.Hot.{IsHotFor, last_of};
ghost use Rattle.run_engine.specs.Progress.{IsAt};
ghost use Rattle.run_engine.specs.Report.{tail_after};
ghost use Rattle.run_engine.specs.States.{steps_of};
ghost use Rattle.swmm_top.specs.Answers.{FailsOnlyAt, Leaves, ReadsHotstart};
ghost use Rattle.swmm_top.specs.Outcome.{done, hot_read_of, kept_bytes, resumed, run_of, run_outcome};
ghost use Rattle.swmm_top.specs.Outcome.{state_or};
ghost use Rattle.swmm_top.specs.Taking.{EndsRun, IsFor};
ghost use Rattle.swmm_top.specs.Uses.{read_of};

use crate::fault::{Port, TopFault};
use crate::resume::read_hotstart;
use crate::status::Status;
use crate::taken::ended;
use fault_ports::{Failed, Sink, Source};
use hotstart::{HotRead, HotState, write_hot};
use net_types::{OutOfMemory, Project};
use report_writer::put_hot_refusal;
use run_engine::{Run, open_run};
use std::alloc::Global;

/// Makes the run of a project without a fault: it begins from the hotstart of a source where it resumes, and keeps the
/// hotstart of its last state where it is to.
pub(crate) fn run_project<H: Source, W: Sink, K: Sink>(
    alloc: Global,
    resumes: bool,
    keeps: bool,
    project: Project,
    hot_in: &mut H,
    rpt: &mut W,
    hot_out: &mut K,
) -> Result<Status, TopFault>
    requires { IsFaultless project }
    ensures outcome { IfSome (read_of resumes (H.left hot_in.old)) (λ hotstart.
        Leaves (run_of resumes keeps project hotstart) (W.held rpt.old) (W.held rpt.new)
        (K.held hot_out.old) (K.held hot_out.new) result) }
    ensures read_hotstart { FailsOnlyAt (TopFault.Read Port.HotIn) (H.faults hot_in.old) (H.faults hot_in.new) result }
    ensures ends { EndsRun W.faults rpt.old rpt.new K.faults hot_out.old hot_out.new result }
    ensures faults { OnErr result (IsErrOf result TopFault.OutOfMemory
        ⊎ (IsErrOf result (TopFault.Read Port.HotIn)
        ⊎ (IsErrOf result (TopFault.Write Port.Rpt) ⊎ IsErrOf result (TopFault.Write Port.HotOut)))) }
    ensures to_end { resumes ≡ true → ReadsHotstart (H.left hot_in.old) (H.left hot_in.new) result }
    ensures unread { resumes ≡ false → hot_in.new ≡ hot_in.old }
    ensures unkept { keeps ≡ false → hot_out.new ≡ hot_out.old }
{
    if resumes {
        resume(alloc, keeps, project, hot_in, rpt, hot_out)
    } else {
        run_from(alloc, keeps, project, None, rpt, hot_out)
    }
}

// Makes the run of a project from the hotstart of a source.
fn resume<H: Source, W: Sink, K: Sink>(
    alloc: Global,
    keeps: bool,
    project: Project,
    hot_in: &mut H,
    rpt: &mut W,
    hot_out: &mut K,
) -> Result<Status, TopFault>
    requires { IsFaultless project }
    ensures outcome { IfSome (H.left hot_in.old) (λ hotstart.
        Leaves (resumed keeps project (hot_read_of project hotstart)) (W.held rpt.old) (W.held rpt.new)
        (K.held hot_out.old) (K.held hot_out.new) result) }
    ensures read_hotstart { FailsOnlyAt (TopFault.Read Port.HotIn) (H.faults hot_in.old) (H.faults hot_in.new) result }
    ensures ends { EndsRun W.faults rpt.old rpt.new K.faults hot_out.old hot_out.new result }
    ensures faults { OnErr result (IsErrOf result TopFault.OutOfMemory
        ⊎ (IsErrOf result (TopFault.Read Port.HotIn)
        ⊎ (IsErrOf result (TopFault.Write Port.Rpt) ⊎ IsErrOf result (TopFault.Write Port.HotOut)))) }
    ensures to_end { ReadsHotstart (H.left hot_in.old) (H.left hot_in.new) result }
    ensures unkept { keeps ≡ false → hot_out.new ≡ hot_out.old }
{
    match read_hotstart(alloc, &project, hot_in) {
        Ok(read) => run_read(alloc, keeps, project, read, rpt, hot_out),
        Err(fault) => Err(fault),
    }
}

// Makes the run of a project from what its hotstart is read as, or reports why that isn't good.
fn run_read<W: Sink, K: Sink>(
    alloc: Global,
    keeps: bool,
    project: Project,
    read: HotRead,
    rpt: &mut W,
    hot_out: &mut K,
) -> Result<Status, TopFault>
    requires faultless { IsFaultless project }
    requires fits { IsFor project read }
    ensures outcome { Leaves (resumed keeps project read) (W.held rpt.old) (W.held rpt.new)
        (K.held hot_out.old) (K.held hot_out.new) result }
    ensures ends { EndsRun W.faults rpt.old rpt.new K.faults hot_out.old hot_out.new result }
    ensures faults { OnErr result (IsErrOf result TopFault.OutOfMemory
        ⊎ (IsErrOf result (TopFault.Write Port.Rpt) ⊎ IsErrOf result (TopFault.Write Port.HotOut))) }
    ensures unkept { keeps ≡ false → hot_out.new ≡ hot_out.old }
{
    match state_in(read) {
        Ok(state) => run_from(alloc, keeps, project, Some(state), rpt, hot_out),
        Err(refusal) => ended(Status::Refused, put_hot_refusal(rpt, &refusal)),
    }
}

// The state of a good hotstart, or what is wrong with another.
fn state_in(read: HotRead) -> Result<HotState, HotRead>
    ensures { result ≡ state_or read }
{
    match read {
        HotRead::Good(state) => Ok(state),
        HotRead::BadMagic { place } => Err(HotRead::BadMagic { place }),
        HotRead::Ends { place } => Err(HotRead::Ends { place }),
        HotRead::Count {
            what,
            file,
            project,
        } => Err(HotRead::Count {
            what,
            file,
            project,
        }),
        HotRead::Kind { file, project } => Err(HotRead::Kind { file, project }),
        HotRead::BadValue { place } => Err(HotRead::BadValue { place }),
        HotRead::GoesOn { place } => Err(HotRead::GoesOn { place }),
    }
}

// Makes the run of a project that begins so, and gives its memory back.
fn run_from<W: Sink, K: Sink>(
    alloc: Global,
    keeps: bool,
    project: Project,
    hot: Option<HotState>,
    rpt: &mut W,
    hot_out: &mut K,
) -> Result<Status, TopFault>
    requires faultless { IsFaultless project }
    requires fits { IfSome hot (IsHotFor project) }
    ensures outcome { Leaves (run_outcome keeps (record { project = project; hot = hot }))
        (W.held rpt.old) (W.held rpt.new) (K.held hot_out.old) (K.held hot_out.new) result }
    ensures ends { EndsRun W.faults rpt.old rpt.new K.faults hot_out.old hot_out.new result }
    ensures faults { OnErr result (IsErrOf result TopFault.OutOfMemory
        ⊎ (IsErrOf result (TopFault.Write Port.Rpt) ⊎ IsErrOf result (TopFault.Write Port.HotOut))) }
    ensures unkept { keeps ≡ false → hot_out.new ≡ hot_out.old }
{
    match open_run(alloc, project, hot) {
        Ok(run) => finish_run(keeps, run, rpt, hot_out),
        Err(OutOfMemory) => Err(TopFault::OutOfMemory),
    }
}

// Makes a run that was just opened, and gives its memory back.
fn finish_run<W: Sink, K: Sink>(
    keeps: bool,
    run: Run,
    rpt: &mut W,
    hot_out: &mut K,
) -> Result<Status, TopFault>
    requires { IsAt run 0 }
    ensures outcome { Leaves (run_outcome keeps run.start) (W.held rpt.old) (W.held rpt.new)
        (K.held hot_out.old) (K.held hot_out.new) result }
    ensures ends { EndsRun W.faults rpt.old rpt.new K.faults hot_out.old hot_out.new result }
    ensures faults { OnErr result (IsErrOf result (TopFault.Write Port.Rpt)
        ⊎ IsErrOf result (TopFault.Write Port.HotOut)) }
    ensures unkept { keeps ≡ false → hot_out.new ≡ hot_out.old }
{
    let mut run = run;
    let answer = make_run(keeps, &mut run, rpt, hot_out);
    drop(run);
    answer
}

// Makes all steps of a run that was just opened, reports it, and keeps its last state.
fn make_run<W: Sink, K: Sink>(
    keeps: bool,
    run: &mut Run,
    rpt: &mut W,
    hot_out: &mut K,
) -> Result<Status, TopFault>
    requires { IsAt run.old 0 }
    ensures outcome { Leaves (run_outcome keeps run.old.start) (W.held rpt.old) (W.held rpt.new)
        (K.held hot_out.old) (K.held hot_out.new) result }
    ensures ends { EndsRun W.faults rpt.old rpt.new K.faults hot_out.old hot_out.new result }
    ensures faults { OnErr result (IsErrOf result (TopFault.Write Port.Rpt)
        ⊎ IsErrOf result (TopFault.Write Port.HotOut)) }
    ensures unkept { keeps ≡ false → hot_out.new ≡ hot_out.old }
{
    match run.advance_alone(rpt) {
        Ok(()) => report_run(keeps, run, rpt, hot_out),
        Err(Failed) => Err(TopFault::Write(Port::Rpt)),
    }
}

// Reports the figures of a run whose steps are made, and keeps its last state.
fn report_run<W: Sink, K: Sink>(
    keeps: bool,
    run: &Run,
    rpt: &mut W,
    hot_out: &mut K,
) -> Result<Status, TopFault>
    requires at { IsAt run.now (steps_of run.now.start) }
    requires last { run.now.last ≡ last_of run.now.start }
    requires written { IsHotState run.now.last }
    ensures outcome { Leaves (done (tail_after run.now.start (steps_of run.now.start)) (kept_bytes keeps run.now.start))
        (W.held rpt.old) (W.held rpt.new) (K.held hot_out.old) (K.held hot_out.new) result }
    ensures ends { EndsRun W.faults rpt.old rpt.new K.faults hot_out.old hot_out.new result }
    ensures faults { OnErr result (IsErrOf result (TopFault.Write Port.Rpt)
        ⊎ IsErrOf result (TopFault.Write Port.HotOut)) }
    ensures unkept { keeps ≡ false → hot_out.new ≡ hot_out.old }
{
    match run.finish(rpt) {
        Ok(()) => keep_state(keeps, run.hot_state(), hot_out),
        Err(Failed) => Err(TopFault::Write(Port::Rpt)),
    }
}

// Keeps a state as a hotstart, where it is to be kept.
fn keep_state<K: Sink>(keeps: bool, state: &HotState, hot_out: &mut K) -> Result<Status, TopFault>
    requires { IsHotState state.now }
    ensures status { IfOk result (λ status. status ≡ Status.Done) }
    ensures hotstart { Puts (K.held hot_out.old) (K.held hot_out.new) (if keeps then hot_bytes state.now else []) result }
    ensures cause { FailsOnlyAt (TopFault.Write Port.HotOut) (K.faults hot_out.old) (K.faults hot_out.new) result }
    ensures faults { OnErr result (IsErrOf result (TopFault.Write Port.HotOut)) }
    ensures unkept { keeps ≡ false → hot_out.new ≡ hot_out.old }
{
    if !keeps {
        return Ok(Status::Done);
    }
    match write_hot(hot_out, state) {
        Ok(()) => Ok(Status::Done),
        Err(Failed) => Err(TopFault::Write(Port::HotOut)),
    }
}
