// Files of one reach, of two nodes and a link, beside what was worked out by hand.
ghost use Rattle.std.specs.Prelude.{◌≤◌};

use crate::checks::check_file;
use crate::refusal::Refusal;
use crate::shape::Shape;
use crate::{HotState, write_hot};
use fault_ports::MemSink;
use net_types::{InfilKind, List, OutOfMemory};
use std::alloc::Global;
use std::test::Fail;

// The file of version 2: two heads, a flow, a setting and the least travel time.
const FILE: [u8; 64] = *b"SWMMFXH2\x02\0\0\0\x01\0\0\0\0\0\0\0\0\0\0\0\
    \xa1\x8b\x0f\0\0\0\0\0\x40\x42\x0f\0\0\0\0\0\xd3\x4a\0\0\0\0\0\0\x40\x42\x0f\0\0\0\0\0\
    \x5c\x7b\0\0\0\0\0\0";

// The file of version 1.
const OLD_FILE: [u8; 52] = *b"SWMMFXH1\x02\0\0\0\x01\0\0\0\0\0\0\0\
    \xa1\x8b\x0f\0\0\0\0\0\x40\x42\x0f\0\0\0\0\0\xd3\x4a\0\0\0\0\0\0\x40\x42\x0f\0\0\0\0\0";

// What a file is refused for in a project of so many nodes and a link.
fn refusal(file: &[u8], nodes: usize) -> Option<Refusal>
    requires { nodes ≤ 20_000 }
{
    let shape = Shape {
        nodes,
        links: 1,
        subs: 0,
        kind: InfilKind::ModifiedHorton,
    };
    match check_file(file, &shape) {
        Ok(()) => None,
        Err(refusal) => Some(refusal),
    }
}

// The file with another byte at a place.
fn changed(place: usize, byte: u8) -> [u8; 64] {
    let mut file = FILE;
    if place < 64 {
        file[place] = byte;
    }
    file
}

#[test]
fn each_front_of_a_file_ends_at_its_end(rt: HostRuntime) {
    for n in 0..52 {
        let place = n as u64;
        assert_eq!(rt; refusal(&OLD_FILE[..n], 2), Some(Refusal::Ends { place }));
    }
    for n in 0..64 {
        let place = n as u64;
        assert_eq!(rt; refusal(&FILE[..n], 2), Some(Refusal::Ends { place }));
    }
}

#[test]
fn good_files_and_longer_ones(rt: HostRuntime) {
    let mut longer = [0u8; 65];
    longer[..64].copy_from_slice(&FILE);
    assert_eq!(rt; refusal(&FILE, 2), None);
    assert_eq!(rt; refusal(&OLD_FILE, 2), None);
    assert_eq!(rt; refusal(&longer, 2), Some(Refusal::GoesOn { place: 64 }));
}

#[test]
fn counts_of_another_network(rt: HostRuntime) {
    let three = Refusal::Count {
        what: 0,
        file: 2,
        project: 3,
    };
    let many = Refusal::Count {
        what: 0,
        file: 4_294_967_295,
        project: 2,
    };
    assert_eq!(rt; refusal(&FILE, 3), Some(three));
    assert_eq!(rt;
        refusal(
            b"SWMMFXH1\xff\xff\xff\xff\xff\xff\xff\xff\xff\xff\xff\xff",
            2
        ),
        Some(many)
    );
}

#[test]
fn the_first_byte_that_does_not_fit(rt: HostRuntime) {
    let other_kind = Refusal::Kind {
        file: 1,
        project: 0,
    };
    assert_eq!(rt;
        refusal(&changed(6, b'h'), 2),
        Some(Refusal::BadMagic { place: 6 })
    );
    assert_eq!(rt;
        refusal(&changed(7, b'3'), 2),
        Some(Refusal::BadMagic { place: 7 })
    );
    assert_eq!(rt; refusal(&changed(20, 1), 2), Some(other_kind));
    assert_eq!(rt;
        refusal(&changed(39, 1), 2),
        Some(Refusal::BadValue { place: 32 })
    );
    assert_eq!(rt;
        refusal(&changed(63, 128), 2),
        Some(Refusal::BadValue { place: 56 })
    );
}

// The state of these numbers, as it is written.
fn written(alloc: Global) -> Result<MemSink, OutOfMemory> {
    let mut state = HotState {
        kind: InfilKind::ModifiedHorton,
        heads: List::new(alloc),
        flows: List::new(alloc),
        settings: List::new(alloc),
        least: 31_580,
        subs: List::new(alloc),
    };
    state.heads.push(1_018_785)?;
    state.heads.push(1_000_000)?;
    state.flows.push(19_155)?;
    state.settings.push(1_000_000)?;
    let mut sink = MemSink::new(alloc, 64, List::new(alloc), 16)?;
    let _ = write_hot(&mut sink, &state);
    Ok(sink)
}

#[test]
fn a_state_is_written(rt: HostRuntime) -> Result<(), Fail> {
    let sink = written(rt.alloc())?;
    assert_eq!(rt; sink.held(), FILE.as_slice());
    Ok(())
}
