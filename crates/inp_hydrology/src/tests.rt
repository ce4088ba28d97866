use crate::{
    number_gages, number_subs, read_areas, read_evaporation, read_gages, read_soil, read_subs,
};
use inp_forms::Known;
use inp_lines::{Line, Names, add_first, no_names, split_lines};
use net_types::{FlowUnits, Infil, InfilKind, LineFault, List, OutOfMemory, SubAreas};
use std::alloc::Global;
use std::test::Fail;

// One name, whose number is 0.
fn one_name<'a>(alloc: Global, name: &'a [u8]) -> Result<Names<'a>, OutOfMemory> {
    let mut names = no_names(alloc);
    add_first(&mut names, name, 0)?;
    Ok(names)
}

// What is known of lines with a node N and a series T.
fn known_of<'a>(alloc: Global, lines: &'a List<Line>) -> Result<Known<'a>, OutOfMemory> {
    Ok(Known {
        units: FlowUnits::Cms,
        nodes: one_name(alloc, b"N")?,
        links: no_names(alloc),
        link_sections: List::new(alloc),
        subs: number_subs(alloc, lines)?,
        gages: number_gages(alloc, lines)?,
        series: one_name(alloc, b"T")?,
        patterns: no_names(alloc),
        curves: no_names(alloc),
        curve_kinds: List::new(alloc),
    })
}

// Whether faults are these, by line, number and token.
fn are(faults: &List<LineFault>, expected: &[(u32, u32, &[u8])]) -> bool {
    let same = faults.as_slice().iter().zip(expected.iter()).all(|(fault, expected)| {
        fault.line == expected.0
            && fault.number == expected.1
            && fault.token.as_slice() == expected.2
    });
    same && faults.as_slice().len() == expected.len()
}

#[test]
fn reads_gages_and_subcatchments(rt: HostRuntime) -> Result<(), Fail> {
    let alloc = rt.alloc();
    let lines = split_lines(
        alloc,
        b"[RAINGAGES]\nG1 volume 0:15 1.0 TIMESERIES T\nG2 CUMULATIVE 1 1 TIMESERIES T\n\
          G3 INTENSITY 25 1 TIMESERIES T\nG4 INTENSITY 1 1 FILE T\nG5 INTENSITY 1 1 TIMESERIES U\n\
          [SUBCATCHMENTS]\nS1 G1 N 5 50 500 0.5 0\nS2 G1 S1 1 50 5 1 0\nS3 G9 N 1 50 5 1 0\n\
          S4 G1 N 1 50 5 1 0 P\nS5 G1 N 1 101 5 1 0\n",
    )?;
    let known = known_of(alloc, &lines)?;
    let mut gages = List::new(alloc);
    let faults = read_gages(alloc, &known, &lines, &mut gages)?;
    let expected = [
        (3, 401, b"CUMULATIVE".as_slice()),
        (4, 213, b"25".as_slice()),
        (5, 401, b"FILE".as_slice()),
        (6, 209, b"U".as_slice()),
    ];
    assert!(rt; are(&faults, &expected));
    for gage in gages.as_slice() {
        assert_eq!(rt;
            (gage.volume, gage.interval, gage.series),
            (true, 900_000, 0)
        );
    }
    let mut subs = List::new(alloc);
    let faults = read_subs(alloc, &known, &lines, &mut subs)?;
    let expected = [
        (9, 401, b"S1".as_slice()),
        (10, 209, b"G9".as_slice()),
        (11, 401, b"P".as_slice()),
        (12, 211, b"101".as_slice()),
    ];
    assert!(rt; are(&faults, &expected));
    for sub in subs.as_slice() {
        assert_eq!(rt;
            (sub.area, sub.imperv6, sub.width),
            (50_000_000_000, 500_000, 500_000_000)
        );
    }
    Ok(())
}

#[test]
fn reads_what_more_is_said_of_subcatchments(rt: HostRuntime) -> Result<(), Fail> {
    let alloc = rt.alloc();
    let lines = split_lines(
        alloc,
        b"[SUBAREAS]\nS1 0.01 0.1 0.05 0 25 OUTLET\nS1 0.01 0.1 0 0 25\nX 0.01 0.1 0 0 25\n\
          S2 0.01 0.1 0 0 25 PERVIOUS\n[INFILTRATION]\nS1 3.0 0.5 4 7 0\nS2 3 0.5 4 0 0\nS2 3 0.5 4 7\n\
          [EVAPORATION]\nCONSTANT 0.0\nDRY_ONLY NO\nCONSTANT 1\nFILE x\nMONTHLY\n\
          [SUBCATCHMENTS]\nS1 G N 5 50 500 0.5 0\nS2 G N 5 50 500 0.5 0\n",
    )?;
    let known = known_of(alloc, &lines)?;
    let mut areas = List::new(alloc);
    let mut faults = read_areas(alloc, &known, &lines, &mut areas)?;
    let expected = [
        (3, 207, b"S1".as_slice()),
        (4, 209, b"X".as_slice()),
        (5, 401, b"PERVIOUS".as_slice()),
    ];
    assert!(rt; are(&faults, &expected));
    for own in areas.as_slice() {
        let areas = SubAreas {
            n_imperv6: 10_000,
            n_perv6: 100_000,
            s_imperv: 50_000,
            s_perv: 0,
            zero6: 250_000,
        };
        assert!(rt; own.sub == 0 && own.areas == areas);
    }
    let mut soil = List::new(alloc);
    faults = read_soil(alloc, InfilKind::ModifiedHorton, &known, &lines, &mut soil)?;
    assert!(rt;
        are(
            &faults,
            &[(8, 211, b"0".as_slice()), (9, 203, b"7".as_slice())]
        )
    );
    for own in soil.as_slice() {
        let infil = Infil::Horton {
            max: 3_000_000,
            min: 500_000,
            decay6: 4_000_000,
            dry: 604_800_000,
            volume: 0,
        };
        assert!(rt; own.sub == 0 && own.infil == infil);
    }
    faults = read_evaporation(alloc, &known, &lines)?;
    let expected = [
        (13, 401, b"1".as_slice()),
        (14, 401, b"FILE".as_slice()),
        (15, 203, b"MONTHLY".as_slice()),
    ];
    assert!(rt; are(&faults, &expected));
    Ok(())
}
