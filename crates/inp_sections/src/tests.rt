use crate::{read_cross_sections, read_losses};
use inp_forms::Known;
use inp_lines::{Line, SectionName, add_first, no_names, split_lines};
use net_types::{FlowUnits, LineFault, List, OutOfMemory, Section, Shape};
use std::alloc::Global;
use std::test::Fail;

// What is known of lines with a conduit C and a pump P.
fn known_of<'a>(alloc: Global) -> Result<Known<'a>, OutOfMemory> {
    let mut links = no_names(alloc);
    add_first(&mut links, b"C", 0)?;
    add_first(&mut links, b"P", 1)?;
    let mut link_sections = List::new(alloc);
    link_sections.push(SectionName::Conduits)?;
    link_sections.push(SectionName::Pumps)?;
    Ok(Known {
        units: FlowUnits::Cms,
        nodes: no_names(alloc),
        links,
        link_sections,
        subs: no_names(alloc),
        gages: no_names(alloc),
        series: no_names(alloc),
        patterns: no_names(alloc),
        curves: no_names(alloc),
        curve_kinds: List::new(alloc),
    })
}

// Whether faults are these, by line, number and token.
fn are(faults: &List<LineFault>, expected: &[(u32, u32, &[u8])]) -> bool {
    let same = faults.as_slice().iter().zip(expected.iter()).all(|(fault, expected)| {
        fault.line == expected.0
            && fault.number == expected.1
            && fault.token.as_slice() == expected.2
    });
    same && faults.as_slice().len() == expected.len()
}

#[test]
fn reads_cross_sections_and_losses(rt: HostRuntime) -> Result<(), Fail> {
    let alloc = rt.alloc();
    let lines: List<Line> = split_lines(
        alloc,
        b"[XSECTIONS]\nC TRAPEZOIDAL 2 1 0.5 1.5 4\nC CIRCULAR 1 0\nX CIRCULAR 1 0\nP EGG 1 0\nP CIRCULAR 0.0005 0\n\
          [LOSSES]\nC 0.5 1 0 YES\nP 0 0 0\n",
    )?;
    let known = known_of(alloc)?;
    let mut sections = List::new(alloc);
    let mut faults = read_cross_sections(alloc, &known, &lines, &mut sections)?;
    let expected = [
        (3, 207, b"C".as_slice()),
        (4, 209, b"X".as_slice()),
        (5, 401, b"EGG".as_slice()),
        (6, 207, b"P".as_slice()),
    ];
    assert!(rt; are(&faults, &expected));
    for own in sections.as_slice() {
        let section = Section {
            shape: Shape::Trapezoidal {
                bottom: 1_000_000,
                left6: 500_000,
                right6: 1_500_000,
            },
            full: 2_000_000,
            barrels: 4,
        };
        assert!(rt; own.link == 0 && own.section == section);
    }
    let mut losses = List::new(alloc);
    faults = read_losses(alloc, &known, &lines, &mut losses)?;
    assert!(rt; are(&faults, &[(9, 209, b"P".as_slice())]));
    for own in losses.as_slice() {
        assert!(rt; own.link == 0 && own.entry6 == 500_000 && own.exit6 == 1_000_000 && own.flap);
    }
    Ok(())
}
