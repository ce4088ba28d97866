// Taking an input: it is refused by a report, or it is a project without a fault.
ghost use Rattle.std.specs.Prelude.{List as Sequence, ℕ, ◌+◌, ◌≤◌, length, ◌≡◌, ◌⊎◌};
ghost use Rattle.std.specs.Prelude.{[], Ok, Err, IfOk, IfSome, OnOk, OnErr, IsErrOf};
ghost use Rattle.inp_lines.specs.Lines.{lines_of};
ghost use Rattle.inp_reader.specs.Reading.{ReadsAs};
ghost use Rattle.inp_reader.specs.Soundness.{AcceptsSound};
ghost use Rattle.net_types.specs.Sound.{IsSound};
ghost use Rattle.project_check.specs.Faultless.{IsFaultless};
ghost use Rattle.fault_ports.specs.Output.{Puts};
ghost use Rattle.project_check.specs.ProjectFaults.{project_faults};
ghost use Rattle.report_writer.specs.FaultReports.{line_faults_report};
ghost use Rattle.swmm_top.specs.Answers.{BeforeWriting, FailsOnlyAt};
ghost use Rattle.swmm_top.specs.Input.{TakesFront, input_limit};
ghost use Rattle.swmm_top.specs.Taking.{EndsReport, IsGood, IsUnput, TakesInput, TakesProject, TakesToEnd};

use crate::fault::{Port, TopFault};
use crate::input::{ReadFault, read_front};
use crate::status::Status;
use fault_ports::{Failed, Sink, Source};
use inp_reader::{Read, read_project};
use net_types::{LineFault, List, OutOfMemory, Project, ProjectFault};
use project_check::check;
use report_writer::{put_input_too_long, put_line_faults, put_project_faults};
use std::alloc::Global;

/// The most bytes that an input may have.
pub const INPUT_LIMIT: usize = 33_554_432;

/// What an input was taken for: it is refused, and its report was put, or it is a project without a fault.
#[derive(Debug, Drop)]
pub(crate) enum Taken {
    Refused,
    Accepted(Project),
}

/// Takes the input of a source: reads it to its end, or one byte past the limit, and reports why it is refused.
pub(crate) fn take_source<S: Source, W: Sink>(
    alloc: Global,
    inp: &mut S,
    rpt: &mut W,
) -> Result<Taken, TopFault>
    ensures taken { IfSome (S.left inp.old) (λ input. TakesInput input (W.held rpt.old) (W.held rpt.new) result) }
    ensures good { IfOk result IsGood }
    ensures unput { IfOk result (IsUnput rpt.old rpt.new) }
    ensures read_input { FailsOnlyAt (TopFault.Read Port.Inp) (S.faults inp.old) (S.faults inp.new) result }
    ensures write_report { FailsOnlyAt (TopFault.Write Port.Rpt) (W.faults rpt.old) (W.faults rpt.new) result }
    ensures faults { OnErr result (IsErrOf result TopFault.OutOfMemory
        ⊎ (IsErrOf result (TopFault.Read Port.Inp) ⊎ IsErrOf result (TopFault.Write Port.Rpt))) }
    ensures read_to_end { TakesToEnd (S.left inp.old) (S.left inp.new) result }
    ensures unwritten { BeforeWriting result (rpt.new ≡ rpt.old) }
{
    match read_input(alloc, inp) {
        Ok(bytes) => take_input(alloc, &bytes, rpt),
        Err(fault) => Err(fault),
    }
}

// Reads the input to its end, or one byte past the limit.
fn read_input<S: Source>(alloc: Global, inp: &mut S) -> Result<Vec<u8>, TopFault>
    ensures bytes { IfOk result (λ bytes. TakesFront (input_limit + 1) (S.left inp.old) (S.left inp.new) bytes.items) }
    ensures cause { FailsOnlyAt (TopFault.Read Port.Inp) (S.faults inp.old) (S.faults inp.new) result }
    ensures faults { OnErr result (IsErrOf result TopFault.OutOfMemory ⊎ IsErrOf result (TopFault.Read Port.Inp)) }
{
    match read_front(alloc, inp, INPUT_LIMIT + 1) {
        Ok(bytes) => Ok(bytes),
        Err(ReadFault::Failed) => Err(TopFault::Read(Port::Inp)),
        Err(ReadFault::OutOfMemory) => Err(TopFault::OutOfMemory),
    }
}

/// Takes an input that was read, and reports why it is refused.
pub(crate) fn take_input<W: Sink>(
    alloc: Global,
    input: &[u8],
    rpt: &mut W,
) -> Result<Taken, TopFault>
    ensures taken { TakesInput input.now (W.held rpt.old) (W.held rpt.new) result }
    ensures good { IfOk result IsGood }
    ensures unput { IfOk result (IsUnput rpt.old rpt.new) }
    ensures ends { EndsReport W.faults rpt.old rpt.new result }
{
    if input.len() > INPUT_LIMIT {
        return refused(put_input_too_long(rpt));
    }
    match read_project(alloc, input) {
        Ok(read) => take_read(alloc, read, rpt),
        Err(OutOfMemory) => Err(TopFault::OutOfMemory),
    }
}

// Takes what an input within the limit is read as.
fn take_read<W: Sink>(alloc: Global, read: Read, rpt: &mut W) -> Result<Taken, TopFault>
    requires { AcceptsSound read }
    ensures taken { (input : Sequence ℕ) → length input ≤ input_limit → ReadsAs (lines_of input) read
        → TakesInput input (W.held rpt.old) (W.held rpt.new) result }
    ensures good { IfOk result IsGood }
    ensures unput { IfOk result (IsUnput rpt.old rpt.new) }
    ensures ends { EndsReport W.faults rpt.old rpt.new result }
{
    match read {
        Read::Refused(faults) => refuse_lines(&faults, rpt),
        Read::Accepted(project) => take_project(alloc, project, rpt),
    }
}

// Reports faults of lines.
fn refuse_lines<W: Sink>(faults: &List<LineFault>, rpt: &mut W) -> Result<Taken, TopFault>
    ensures taken { IfOk result (λ taken. taken ≡ Taken.Refused) }
    ensures report { Puts (W.held rpt.old) (W.held rpt.new) (line_faults_report faults.now) result }
    ensures ends { EndsReport W.faults rpt.old rpt.new result }
{
    refused(put_line_faults(rpt, faults))
}

// Takes a project whose lines have no fault.
fn take_project<W: Sink>(alloc: Global, project: Project, rpt: &mut W) -> Result<Taken, TopFault>
    requires { IsSound project }
    ensures taken { TakesProject project (W.held rpt.old) (W.held rpt.new) result }
    ensures good { IfOk result IsGood }
    ensures unput { IfOk result (IsUnput rpt.old rpt.new) }
    ensures ends { EndsReport W.faults rpt.old rpt.new result }
{
    match check(alloc, &project) {
        Ok(faults) => take_checked(project, &faults, rpt),
        Err(OutOfMemory) => Err(TopFault::OutOfMemory),
    }
}

// Reports the faults of a project, or takes it where it has none.
fn take_checked<W: Sink>(
    project: Project,
    faults: &List<ProjectFault>,
    rpt: &mut W,
) -> Result<Taken, TopFault>
    requires are { faults.now ≡ project_faults project }
    requires good { faults.now ≡ [] → IsFaultless project }
    ensures taken { TakesProject project (W.held rpt.old) (W.held rpt.new) result }
    ensures good { IfOk result IsGood }
    ensures unput { IfOk result (IsUnput rpt.old rpt.new) }
    ensures ends { EndsReport W.faults rpt.old rpt.new result }
{
    match faults.as_slice() {
        [] => Ok(Taken::Accepted(project)),
        [_, ..] => refused(put_project_faults(rpt, faults)),
    }
}

// The input is refused, once its report was put.
fn refused(put: Result<(), Failed>) -> Result<Taken, TopFault>
    ensures done { OnOk put (result ≡ Ok Taken.Refused) }
    ensures failed { OnErr put (result ≡ Err (TopFault.Write Port.Rpt)) }
{
    match put {
        Ok(()) => Ok(Taken::Refused),
        Err(Failed) => Err(TopFault::Write(Port::Rpt)),
    }
}

/// The status after a report was put.
pub(crate) fn ended(status: Status, put: Result<(), Failed>) -> Result<Status, TopFault>
    ensures done { OnOk put (result ≡ Ok status) }
    ensures failed { OnErr put (result ≡ Err (TopFault.Write Port.Rpt)) }
{
    match put {
        Ok(()) => Ok(status),
        Err(Failed) => Err(TopFault::Write(Port::Rpt)),
    }
}
