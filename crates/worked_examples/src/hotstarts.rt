// Hotstart files read for the project of an input.
ghost use Rattle.std.specs.Prelude.{◌≤◌, length};

use crate::reaches::ONE_REACH;
use hotstart::{HotRead, HotState, read_hot};
use inp_reader::{Read, read_project};
use std::alloc::Global;
use std::test::Fail;

// The last state of the reach in a file of version 2, and in one of version 1.
pub(crate) const LAST_STATE: [u8; 64] = *b"SWMMFXH2\x02\0\0\0\x01\0\0\0\0\0\0\0\0\0\0\0\
    \xa1\x8b\x0f\0\0\0\0\0\x40\x42\x0f\0\0\0\0\0\xd3\x4a\0\0\0\0\0\0\x40\x42\x0f\0\0\0\0\0\
    \x5c\x7b\0\0\0\0\0\0";

const OLD_LAST_STATE: [u8; 52] = *b"SWMMFXH1\x02\0\0\0\x01\0\0\0\0\0\0\0\
    \xa1\x8b\x0f\0\0\0\0\0\x40\x42\x0f\0\0\0\0\0\xd3\x4a\0\0\0\0\0\0\x40\x42\x0f\0\0\0\0\0";

// What a file is read as for the reach.
fn read_for_reach(alloc: Global, file: &[u8]) -> Result<HotRead, Fail> {
    match read_project(alloc, ONE_REACH)? {
        Read::Accepted(project) => Ok(read_hot(alloc, file, &project)?),
        Read::Refused(_) => Err("the reach is refused".into()),
    }
}

// The state in a file for the reach.
fn state_for_reach(alloc: Global, file: &[u8]) -> Result<HotState, Fail> {
    match read_for_reach(alloc, file)? {
        HotRead::Good(state) => Ok(state),
        _ => Err("the file is refused".into()),
    }
}

#[test]
fn reads_a_state_of_each_version(rt: HostRuntime) -> Result<(), Fail> {
    for (file, least) in [
        (LAST_STATE.as_slice(), 31_580),
        (OLD_LAST_STATE.as_slice(), 0),
    ] {
        let state = state_for_reach(rt.alloc(), file)?;
        assert_eq!(rt; state.heads.as_slice(), [1_018_785, 1_000_000].as_slice());
        assert_eq!(rt; state.flows.as_slice(), [19_155].as_slice());
        assert_eq!(rt; state.settings.as_slice(), [1_000_000].as_slice());
        assert_eq!(rt; state.least, least);
    }
    Ok(())
}

#[test]
fn tells_where_a_file_ends(rt: HostRuntime) -> Result<(), Fail> {
    let read = read_for_reach(rt.alloc(), &LAST_STATE[..63])?;
    assert!(rt; matches!(read, HotRead::Ends { place: 63 }));
    Ok(())
}
