use crate::{number_links, number_nodes, read_links, read_nodes};
use inp_forms::Known;
use inp_lines::{Line, no_names, split_lines};
use net_types::{FlowUnits, LineFault, LinkKind, List, NodeKind, OutOfMemory, Stage, StoreShape};
use std::alloc::Global;
use std::test::Fail;

// What is known of lines without curves and series.
fn known_of<'a>(
    alloc: Global,
    units: FlowUnits,
    lines: &'a List<Line>,
) -> Result<Known<'a>, OutOfMemory> {
    Ok(Known {
        units,
        nodes: number_nodes(alloc, lines)?,
        links: number_links(alloc, lines)?,
        link_sections: List::new(alloc),
        subs: no_names(alloc),
        gages: no_names(alloc),
        series: no_names(alloc),
        patterns: no_names(alloc),
        curves: no_names(alloc),
        curve_kinds: List::new(alloc),
    })
}

// Whether faults are these, by line, number and token.
fn are(faults: &List<LineFault>, expected: &[(u32, u32, &[u8])]) -> bool {
    let same = faults.as_slice().iter().zip(expected.iter()).all(|(fault, expected)| {
        fault.line == expected.0
            && fault.number == expected.1
            && fault.token.as_slice() == expected.2
    });
    same && faults.as_slice().len() == expected.len()
}

#[test]
fn reads_nodes_and_their_faults(rt: HostRuntime) -> Result<(), Fail> {
    let alloc = rt.alloc();
    let lines = split_lines(
        alloc,
        b"[JUNCTIONS]\nJ1 10 3 1 0.5 2\n[OUTFALLS]\nO1 8 free YES\nO2 8 FIXED 9 NO\n[STORAGE]\n\
          S1 1 3 0 FUNCTIONAL 1.5 0.5 0\n\
          [OUTFALLS]\nO3 8 FIXED\nO4 8 TIDAL T\nO5 8 FREE NO 1\nO6 x FOO\nJ1 8 FREE\n[STORAGE]\n\
          S2 0 1 0 TABULAR C\nS3 0 1 0 FUNCTIONAL 1 0.7 0\nS4 0 1 0 LINE 1\n",
    )?;
    let known = known_of(alloc, FlowUnits::Cms, &lines)?;
    let mut nodes = List::new(alloc);
    let faults = read_nodes(alloc, &known, &lines, &mut nodes)?;
    let expected = [
        NodeKind::Junction {
            surcharge: 500_000,
            pond: 2_000_000,
        },
        NodeKind::Outfall {
            stage: Stage::Free,
            gated: true,
        },
        NodeKind::Outfall {
            stage: Stage::Fixed(9_000_000),
            gated: false,
        },
        NodeKind::Storage {
            shape: StoreShape::Functional {
                a1: 1_500_000,
                halves: 1,
                a0: 0,
            },
        },
    ];
    for (node, kind) in nodes.as_slice().iter().zip(expected.iter()) {
        assert!(rt; node.kind == *kind);
    }
    let expected = [
        (9, 203, b"FIXED".as_slice()),
        (10, 209, b"T".as_slice()),
        (11, 401, b"1".as_slice()),
        (12, 211, b"x".as_slice()),
        (13, 207, b"J1".as_slice()),
        (15, 209, b"C".as_slice()),
        (16, 401, b"0.7".as_slice()),
        (17, 205, b"LINE".as_slice()),
    ];
    assert!(rt; are(&faults, &expected));
    Ok(())
}

#[test]
fn reads_links_and_their_faults(rt: HostRuntime) -> Result<(), Fail> {
    let alloc = rt.alloc();
    let lines = split_lines(
        alloc,
        b"[CONDUITS]\nC1 A B 10 0.013 1 2 0.5 3\n[ORIFICES]\nSLIT1 A B side 0.5 0.65 YES 0\n[WEIRS]\n\
          NOTCH1 B A V-NOTCH 1 1 NO 2\n[JUNCTIONS]\nA 0\nB 0\n\
          [CONDUITS]\nC2 A B 10 0.013 1 2 0 -1\nC3 A X 10 0.013 0 0\n[PUMPS]\nP1 A B *\nP2 A B K\n[ORIFICES]\n\
          SLIT2 A B TOP 0 0.65\nSLIT3 A B SIDE 0 0.65 NO 1\n\
          [WEIRS]\nNOTCH2 A B SIDEFLOW 0 1\nNOTCH3 A B TRANSVERSE 0 1 NO 3\n",
    )?;
    let known = known_of(alloc, FlowUnits::Cfs, &lines)?;
    let mut links = List::new(alloc);
    let faults = read_links(alloc, &known, &lines, &mut links)?;
    let expected = [
        LinkKind::Conduit {
            length: 3_048_000,
            n6: 13_000,
            z1: 304_800,
            z2: 609_600,
            q0: 14_158,
            q_max: 84_951,
            entry6: 0,
            exit6: 0,
            avg6: 0,
            flap: false,
        },
        LinkKind::Orifice {
            bottom: false,
            offset: 152_400,
            cd6: 650_000,
            flap: true,
        },
        LinkKind::Weir {
            notch: true,
            crest: 304_800,
            cd6: 552_087,
            flap: false,
            contractions: 2,
        },
    ];
    for (link, kind) in links.as_slice().iter().zip(expected.iter()) {
        assert!(rt; link.kind == *kind);
    }
    let expected = [
        (11, 211, b"-1".as_slice()),
        (12, 209, b"X".as_slice()),
        (14, 401, b"*".as_slice()),
        (15, 209, b"K".as_slice()),
        (17, 205, b"TOP".as_slice()),
        (18, 401, b"1".as_slice()),
        (20, 401, b"SIDEFLOW".as_slice()),
        (21, 211, b"3".as_slice()),
    ];
    assert!(rt; are(&faults, &expected));
    Ok(())
}
