use crate::{read_dry, read_inflows};
use inp_forms::Known;
use inp_lines::{add_first, no_names, split_lines};
use net_types::{DryFlow, FlowUnits, LineFault, List, OutOfMemory};
use std::alloc::Global;
use std::test::Fail;

// Nodes J1 and J2, a series S1, patterns P1 and P2.
fn some_names<'a>(alloc: Global) -> Result<Known<'a>, OutOfMemory> {
    let mut nodes = no_names(alloc);
    add_first(&mut nodes, b"J1", 0)?;
    add_first(&mut nodes, b"J2", 1)?;
    let mut series = no_names(alloc);
    add_first(&mut series, b"S1", 0)?;
    let mut patterns = no_names(alloc);
    add_first(&mut patterns, b"P1", 0)?;
    add_first(&mut patterns, b"P2", 1)?;
    Ok(Known {
        units: FlowUnits::Cms,
        nodes,
        links: no_names(alloc),
        link_sections: List::new(alloc),
        subs: no_names(alloc),
        gages: no_names(alloc),
        series,
        patterns,
        curves: no_names(alloc),
        curve_kinds: List::new(alloc),
    })
}

// Whether faults are these, by line, number and token.
fn are(faults: &List<LineFault>, expected: &[(u32, u32, &[u8])]) -> bool {
    let same = faults.as_slice().iter().zip(expected.iter()).all(|(fault, expected)| {
        fault.line == expected.0
            && fault.number == expected.1
            && fault.token.as_slice() == expected.2
    });
    same && faults.as_slice().len() == expected.len()
}

// Whether dry weather flows are these, by node, base and patterns.
fn have(dry: &List<DryFlow>, expected: &[(u32, i64, &[u32])]) -> bool {
    let same = dry.as_slice().iter().zip(expected.iter()).all(|(made, expected)| {
        made.node == expected.0
            && made.base6 == expected.1
            && made.patterns.as_slice() == expected.2
    });
    same && dry.as_slice().len() == expected.len()
}

#[test]
fn reads_inflows_and_their_faults(rt: HostRuntime) -> Result<(), Fail> {
    let alloc = rt.alloc();
    let lines = split_lines(
        alloc,
        b"[INFLOWS]\nJ1 FLOW \"\"\nJ1 flow S1 FLOW 1.0 2.5 -0.5 P2 x\nJ2 FLOW S1\nJ9 FLOW \"\"\n\
          J1 TSS \"\"\nJ1 FLOW S9\nJ1 FLOW \"\" MASS\nJ1 FLOW \"\" FLOW 2\nJ1 FLOW \"\" FLOW 1 x\n\
          J1 FLOW \"\" FLOW 1 1 0 \"\"\nJ1 FLOW\n",
    )?;
    let known = some_names(alloc)?;
    let mut inflows = List::new(alloc);
    let faults = read_inflows(alloc, &known, &lines, &mut inflows)?;
    let records = [
        (0, None, 1_000_000, 0, None),
        (0, Some(0), 2_500_000, -500_000, Some(1)),
        (1, Some(0), 1_000_000, 0, None),
    ];
    assert!(rt; inflows.as_slice().len() == 3);
    for (inflow, entry) in inflows.as_slice().iter().zip(records.iter()) {
        let found = (
            inflow.node,
            inflow.series,
            inflow.scale6,
            inflow.base6,
            inflow.pattern,
        );
        assert!(rt; found == *entry);
    }
    let expected = [
        (5, 209, b"J9".as_slice()),
        (6, 401, b"TSS".as_slice()),
        (7, 209, b"S9".as_slice()),
        (8, 205, b"MASS".as_slice()),
        (9, 401, b"2".as_slice()),
        (10, 211, b"x".as_slice()),
        (11, 209, b"".as_slice()),
        (12, 203, b"FLOW".as_slice()),
    ];
    assert!(rt; are(&faults, &expected));
    Ok(())
}

#[test]
fn reads_dry_weather_flows_and_their_faults(rt: HostRuntime) -> Result<(), Fail> {
    let alloc = rt.alloc();
    let lines = split_lines(
        alloc,
        b"[DWF]\nJ2 FLOW 0.25\nJ1 FLOW 1 P1 \"\" P2 P1 P9\nJ1 FLOW x\nJ1 FLOW 1 P9\nJ1 FLOW\nJ9 TSS 1\n",
    )?;
    let known = some_names(alloc)?;
    let mut dry = List::new(alloc);
    let faults = read_dry(alloc, &known, &lines, &mut dry)?;
    let none: [u32; 0] = [];
    let records = [
        (1, 250_000, none.as_slice()),
        (0, 1_000_000, [0, 1, 0].as_slice()),
    ];
    assert!(rt; have(&dry, &records));
    let expected = [
        (4, 211, b"x".as_slice()),
        (5, 209, b"P9".as_slice()),
        (6, 203, b"FLOW".as_slice()),
        (7, 209, b"J9".as_slice()),
    ];
    assert!(rt; are(&faults, &expected));
    Ok(())
}
