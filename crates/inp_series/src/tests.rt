use crate::{read_curves, read_patterns, read_series};
use inp_lines::{number_of, split_lines};
use net_types::{CurveKind, LineFault, List, PatternKind};
use std::test::Fail;

// Whether faults are these, by line, number and token.
fn are(faults: &List<LineFault>, expected: &[(u32, u32, &[u8])]) -> bool {
    let same = faults.as_slice().iter().zip(expected.iter()).all(|(fault, expected)| {
        fault.line == expected.0
            && fault.number == expected.1
            && fault.token.as_slice() == expected.2
    });
    same && faults.as_slice().len() == expected.len()
}

#[test]
fn reads_series_and_their_faults(rt: HostRuntime) -> Result<(), Fail> {
    let alloc = rt.alloc();
    let lines = split_lines(
        alloc,
        b"[TIMESERIES]\nS1 01/01/2024 0:00 1 1:00 2\nS2 0 1.5 0.5 -2\nS1 2 3\nS1 01/02/2024 0:30 4\n\
S3 FILE x.dat\nS4 0\nS5 0 1 0 2\nS6 x 1\nS6 1 y\nS2 13/01/2024 1\n",
    )?;
    let read = read_series(alloc, 1_704_067_200_000, &lines)?;
    let [first, second, ..] = read.records.as_slice() else {
        return Err(Fail::new("too few records"));
    };
    let entries = [
        (0i64, 1_000_000i64),
        (3_600_000, 2_000_000),
        (7_200_000, 3_000_000),
        (88_200_000, 4_000_000),
    ];
    assert!(rt; first.dated && first.entries.as_slice() == entries.as_slice());
    let entries = [(0i64, 1_500_000i64), (1_800_000, -2_000_000)];
    assert!(rt; !second.dated && second.entries.as_slice() == entries.as_slice());
    let expected = [
        (6, 401, b"FILE".as_slice()),
        (7, 203, b"0".as_slice()),
        (8, 173, b"0".as_slice()),
        (9, 213, b"x".as_slice()),
        (10, 211, b"y".as_slice()),
        (11, 213, b"13/01/2024".as_slice()),
    ];
    assert!(rt; are(&read.faults, &expected));
    assert!(rt; number_of(&read.names, b"S6") == Some(4));
    Ok(())
}

#[test]
fn reads_curves_and_their_faults(rt: HostRuntime) -> Result<(), Fail> {
    let alloc = rt.alloc();
    let lines = split_lines(
        alloc,
        b"[CURVES]\nC1 PUMP2 0 1 1.5 2\nC2 storage 1 100\nC1 2 2.5\nC3 FOO 1 2\nC4 TIDAL 1\nC4 1 2\n\
C1 2 3\nC3 0 x\n",
    )?;
    let read = read_curves(alloc, &lines)?;
    let [first, second, _] = read.records.as_slice() else {
        return Err(Fail::new("too few records"));
    };
    let points = [
        (0i64, 1_000_000i64),
        (1_500_000, 2_000_000),
        (2_000_000, 2_500_000),
        (2_000_000, 3_000_000),
    ];
    assert!(rt; first.kind == CurveKind::Pump2 && first.points.as_slice() == points.as_slice());
    assert!(rt; second.kind == CurveKind::Storage && second.points.as_slice().len() == 1);
    let [_, _, third] = read.states.as_slice() else {
        return Err(Fail::new("too few states"));
    };
    assert!(rt; third.kind == None);
    let expected = [
        (5, 401, b"FOO".as_slice()),
        (6, 203, b"1".as_slice()),
        (7, 203, b"2".as_slice()),
        (8, 171, b"2".as_slice()),
        (9, 171, b"0".as_slice()),
    ];
    assert!(rt; are(&read.faults, &expected));
    Ok(())
}

#[test]
fn reads_patterns_and_their_faults(rt: HostRuntime) -> Result<(), Fail> {
    let alloc = rt.alloc();
    let lines = split_lines(
        alloc,
        b"[PATTERNS]\nP1 DAILY 1 2 3\nP2 monthly\nP1 4 5 6 7\nP3 YEARLY 1\nP1 8\nP4 DAILY x\nP5 WEEKEND -1\n\
P6\n",
    )?;
    let read = read_patterns(alloc, &lines)?;
    let [first, second, ..] = read.records.as_slice() else {
        return Err(Fail::new("too few records"));
    };
    let factors = [
        1_000_000i64,
        2_000_000,
        3_000_000,
        4_000_000,
        5_000_000,
        6_000_000,
        7_000_000,
    ];
    assert!(rt;
        first.kind == PatternKind::Daily && first.factors6.as_slice() == factors.as_slice()
    );
    assert!(rt; second.kind == PatternKind::Monthly && second.factors6.as_slice().len() == 0);
    let expected = [
        (5, 205, b"YEARLY".as_slice()),
        (6, 402, b"8".as_slice()),
        (7, 211, b"x".as_slice()),
        (8, 211, b"-1".as_slice()),
        (9, 203, b"P6".as_slice()),
    ];
    assert!(rt; are(&read.faults, &expected));
    assert!(rt; number_of(&read.names, b"P5") == Some(4));
    Ok(())
}
