// Reading the hotstart from which a run begins.
ghost use Rattle.std.specs.Prelude.{◌≡◌, ◌⊎◌, IfOk, IfSome, OnErr, IsErrOf};
ghost use Rattle.hotstart.specs.Reading.{reading_of};
ghost use Rattle.project_check.specs.Faultless.{IsFaultless};
ghost use Rattle.swmm_top.specs.Answers.{FailsOnlyAt, IsReadToEnd};
ghost use Rattle.swmm_top.specs.Input.{hot_limit};
ghost use Rattle.swmm_top.specs.Outcome.{hot_read_of};
ghost use Rattle.swmm_top.specs.Taking.{IsFor};

use crate::fault::{Port, TopFault};
use crate::input::{ReadFault, read_front};
use fault_ports::Source;
use hotstart::{HotRead, good_file_is_written, read_hot};
use net_types::{OutOfMemory, Project};
use std::alloc::Global;

/// The most bytes that a hotstart may have.
pub const HOT_LIMIT: usize = 2_097_152;

/// Reads the hotstart of a source for a project without a fault: to its end, or one byte past the limit.
pub(crate) fn read_hotstart<H: Source>(
    alloc: Global,
    project: &Project,
    hot_in: &mut H,
) -> Result<HotRead, TopFault>
    requires { IsFaultless project.now }
    ensures read { IfOk result (λ read. IfSome (H.left hot_in.old) (λ hotstart. read ≡ hot_read_of project.now hotstart)) }
    ensures fits { IfOk result (IsFor project.now) }
    ensures to_end { IfOk result (λ _. IsReadToEnd hot_limit (H.left hot_in.old) (H.left hot_in.new)) }
    ensures cause { FailsOnlyAt (TopFault.Read Port.HotIn) (H.faults hot_in.old) (H.faults hot_in.new) result }
    ensures faults { OnErr result (IsErrOf result TopFault.OutOfMemory ⊎ IsErrOf result (TopFault.Read Port.HotIn)) }
{
    match read_front(alloc, hot_in, HOT_LIMIT + 1) {
        Ok(bytes) => read_state(alloc, project, &bytes),
        Err(ReadFault::Failed) => Err(TopFault::Read(Port::HotIn)),
        Err(ReadFault::OutOfMemory) => Err(TopFault::OutOfMemory),
    }
}

// Reads bytes as a hotstart of a project.
fn read_state(alloc: Global, project: &Project, bytes: &[u8]) -> Result<HotRead, TopFault>
    requires { IsFaultless project.now }
    ensures read { IfOk result (λ read. read ≡ reading_of project.now bytes.now) }
    ensures fits { IfOk result (IsFor project.now) }
    ensures faults { OnErr result (IsErrOf result TopFault.OutOfMemory) }
{
    good_file_is_written();
    match read_hot(alloc, bytes, project) {
        Ok(read) => Ok(read),
        Err(OutOfMemory) => Err(TopFault::OutOfMemory),
    }
}
