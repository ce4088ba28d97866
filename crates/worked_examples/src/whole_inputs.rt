// Inputs that every call of the top ends, with ample memory: a reach, and a file that has each section.
use crate::commands::{LARGE_PIECES, Ran, check_over, run_over, words};
use crate::reaches::ONE_REACH;
use fault_ports::{MemSink, MemSource, OpenGate};
use net_types::{List, OutOfMemory, Text};
use std::alloc::Global;
use std::sync::Wait;
use std::test::Fail;
use std::thread::Threads;
use swmm_top::{Status, swmm_top};

// The file `examples/every_section.inp`.
const EVERY_SECTION: &str = "\
[TITLE]
every section
[OPTIONS]
FLOW_UNITS CMS
INFILTRATION MODIFIED_HORTON
START_DATE 01/01/2024
END_DATE 01/01/2024
END_TIME 00:30:00
WET_STEP 00:05:00
ROUTING_STEP 20
REPORT_STEP 00:10:00
VARIABLE_STEP 0.75
[EVAPORATION]
CONSTANT 0.0
DRY_ONLY NO
[RAINGAGES]
G1 INTENSITY 0:15 1.0 TIMESERIES RAIN
[SUBCATCHMENTS]
A1 G1 J1 2 50 200 0.5 0
[SUBAREAS]
A1 0.01 0.1 1 2 25 OUTLET
[INFILTRATION]
A1 20 5 4 7 0
[JUNCTIONS]
J1 10 3 0 0 0
J2 9.8 3 0 0 0
J3 9.5 3 0 0 0
[OUTFALLS]
O1 9 FREE NO
O2 8 TIDAL SEA NO
O3 8 TIMESERIES STAGE NO
[STORAGE]
S1 9 3 1 TABULAR AREA 0 0
S2 9 3 0.5 FUNCTIONAL 10 0.5 20 0 0
[CONDUITS]
C1 J1 J2 50 0.013 0 0 0 0
C2 J2 J3 50 0.013 0 0 0 0
C3 J3 O1 50 0.013 0 0 0 0
C4 S2 O2 50 0.02 0 0 0 0
[PUMPS]
P1 S1 J3 LIFT ON 0 0
[ORIFICES]
R1 J2 S1 SIDE 0.1 0.65 NO 0
[WEIRS]
W1 J3 S2 TRANSVERSE 0.2 1.8 NO 2
W2 S2 O3 V-NOTCH 0.2 1.4 YES 0
[XSECTIONS]
C1 CIRCULAR 0.8 0 0 0 1
C2 RECT_CLOSED 0.8 1 0 0 1
C3 TRAPEZOIDAL 1 1 1.5 1.5 1
C4 TRIANGULAR 1 2 0 0 2
R1 CIRCULAR 0.3 0 0 0 1
W1 RECT_OPEN 0.5 2 0 0 1
W2 TRIANGULAR 0.5 1 0 0 1
[LOSSES]
C2 0.5 1 0 YES
[CONTROLS]
RULE LOW
IF NODE S1 DEPTH < 0.5
THEN PUMP P1 STATUS = OFF
ELSE PUMP P1 STATUS = ON
PRIORITY 1
[INFLOWS]
J1 FLOW STORM FLOW 1.0 0.1 0.02 DAY
[DWF]
J2 FLOW 0.01 DAY WEEK
[PATTERNS]
DAY HOURLY 0.5 1 1.5
WEEK DAILY 0.5 1 1 1 1 1 0.5
[CURVES]
AREA STORAGE 0 50 3 80
LIFT PUMP4 0 0.05 3 0.1
SEA TIDAL 0 8.5 12 9.5
[TIMESERIES]
RAIN 0:00 20 0:15 60 0:30 0
STORM 0:00 0 0:10 1 0:20 0
STAGE 01/01/2024 0:00 8.2 1:00 8.6
[REPORT]
INPUT NO
[TAGS]
[MAP]
DIMENSIONS 0 0 10000 10000
[COORDINATES]
J1 100 200
[VERTICES]
[POLYGONS]
A1 100 200
[SYMBOLS]
[LABELS]
[BACKDROP]
[PROFILES]
";

fn source(alloc: Global, input: &[u8]) -> Result<MemSource, OutOfMemory> {
    let input = Text::from_slice(alloc, input)?;
    Ok(MemSource::new(input, List::new(alloc), 4096))
}

// What `swmm_top` answers to a command on two files, and its report.
fn top_over<R: Threads + Wait + Sync>(
    rt: &R,
    alloc: Global,
    mode: &[u8],
    input: &[u8],
) -> Result<Ran, OutOfMemory> {
    let words = words(alloc, mode)?;
    let mut inp = source(alloc, input)?;
    let mut hot_in = source(alloc, b"")?;
    let mut report = MemSink::new(alloc, 4096, List::new(alloc), 4096)?;
    let mut hot_out = MemSink::new(alloc, 0, List::new(alloc), 1)?;
    let answer = swmm_top(
        rt,
        alloc,
        &words,
        &mut inp,
        &mut hot_in,
        &mut report,
        &mut hot_out,
        &OpenGate,
    );
    Ok(Ran { answer, report })
}

// Whether two commands are done, with one report.
fn are_done_alike(one: &Ran, other: &Ran) -> bool {
    one.answer == Ok(Status::Done)
        && other.answer == Ok(Status::Done)
        && one.report.held() == other.report.held()
}

#[test]
fn every_call_is_done(rt: HostRuntime) -> Result<(), Fail> {
    let alloc = rt.alloc();
    for input in [ONE_REACH, EVERY_SECTION.as_bytes()] {
        let alone = run_over(alloc, input, &LARGE_PIECES)?;
        let run = top_over(&rt, alloc, b"run", input)?;
        assert!(rt; are_done_alike(&alone, &run));
        assert!(rt; run.report.held().ends_with(b"End of report\n"));
        let checked = check_over(alloc, input, &LARGE_PIECES)?;
        let check = top_over(&rt, alloc, b"check", input)?;
        assert!(rt; are_done_alike(&checked, &check));
        assert!(rt;
            check
                .report
                .held()
                .starts_with(b"SWMM5-FX REPORT\n\nInput Accepted\n")
        );
    }
    Ok(())
}
