// Reading the front of a source.
ghost use Rattle.std.specs.Prelude.{◌≡◌, ◌-◌, ◌+◌, ◌≤◌, ◌<◌, ◌++◌, length, take};
ghost use Rattle.std.specs.Prelude.{IfOk, OnOk, OnErr, IsErrOf, MatchResult};
ghost use Rattle.std.specs.Io.KnownBytes.{Consumes, Keeps, IsAtEnd};
ghost use Rattle.swmm_top.specs.Answers.{FailsOnlyAt};
ghost use Rattle.swmm_top.specs.Input.{TakesFront, AddsTaken};

use fault_ports::Source;
use std::alloc::{AllocError, Global};

/// Why a source could not be read: it failed, or there was no memory.
#[derive(Clone, Copy, Debug, PartialEq, Eq)]
pub(crate) enum ReadFault {
    Failed,
    OutOfMemory,
}

// The bytes that one call takes at most.
const PIECE: usize = 4096;

// Reads the source to its end, or until `most` bytes were taken.
pub(crate) fn read_front<S: Source>(
    alloc: Global,
    source: &mut S,
    most: usize,
) -> Result<Vec<u8>, ReadFault>
    ensures bytes { IfOk result (λ bytes. TakesFront most (S.left source.old) (S.left source.new) bytes.items) }
    ensures cause { FailsOnlyAt ReadFault.Failed (S.faults source.old) (S.faults source.new) result }
{
    let mut bytes = Vec::new(alloc);
    while bytes.len() < most {
        let room = most - bytes.len();
        if take_some(source, &mut bytes, room)? == 0 {
            break;
        }
    }
    Ok(bytes)
}

// Takes bytes once, at most `room`, and adds them. 0 is the end of the source.
fn take_some<S: Source>(
    source: &mut S,
    bytes: &mut Vec<u8>,
    room: usize,
) -> Result<usize, ReadFault>
    requires { 0 < room }
    ensures taken { IfOk result (λ count.
        AddsTaken (S.left source.old) (S.left source.new) bytes.old.items bytes.new.items count) }
    ensures within { IfOk result (λ count. count ≤ room) }
    ensures cause { FailsOnlyAt ReadFault.Failed (S.faults source.old) (S.faults source.new) result }
{
    let mut piece = [0; PIECE];
    let ends = room.min(PIECE);
    let count = match source.take(&mut piece[..ends]) {
        Ok(count) => count,
        Err(_) => return Err(ReadFault::Failed),
    };
    match bytes.extend_from_slice(&piece[..count]) {
        Ok(()) => Ok(count),
        Err(_) => Err(ReadFault::OutOfMemory),
    }
}
