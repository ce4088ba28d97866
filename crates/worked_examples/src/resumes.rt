// Runs that keep a hotstart and go on from one, and the run of a sample.
use crate::hotstarts::LAST_STATE;
use crate::reaches::{ONE_REACH, ONE_REACH_REPORT};
use fault_ports::{MemSink, MemSource};
use net_types::{List, OutOfMemory, Text};
use std::alloc::Global;
use std::test::Fail;
use swmm_top::{Port, Status, TopFault, run_alone_top};

// What a run over memory answers, its report, and the hotstart that it keeps.
#[derive(Drop)]
struct Resumed {
    answer: Result<Status, TopFault>,
    report: MemSink,
    hotstart: MemSink,
}

// Does the command of these words over an input and a hotstart. The puts of the kept hotstart of these numbers fail.
fn run_words(
    alloc: Global,
    words: &[&[u8]],
    input: &[u8],
    hotstart: &[u8],
    fails: List<u64>,
) -> Result<Resumed, OutOfMemory> {
    let mut list = List::new(alloc);
    for word in words {
        list.push(Text::from_slice(alloc, word)?)?;
    }
    let mut inp = MemSource::new(Text::from_slice(alloc, input)?, List::new(alloc), 4096);
    let mut hot_in = MemSource::new(Text::from_slice(alloc, hotstart)?, List::new(alloc), 4096);
    let mut report = MemSink::new(alloc, 4096, List::new(alloc), 4096)?;
    let mut kept = MemSink::new(alloc, 4096, fails, 4096)?;
    let answer = run_alone_top(alloc, &list, &mut inp, &mut hot_in, &mut report, &mut kept);
    Ok(Resumed {
        answer,
        report,
        hotstart: kept,
    })
}

const KEEPING: [&[u8]; 5] = [b"run", b"a.inp", b"a.rpt", b"--hot-out", b"a.hot"];

const RESUMING: [&[u8]; 5] = [b"--hot-out", b"b.hot", b"run", b"a.inp", b"--hot-in=a.hot"];

// The reach with more lines, of which options count before those above.
fn reach_with(alloc: Global, lines: &[u8]) -> Result<Vec<u8>, OutOfMemory> {
    let mut input = Vec::new(alloc);
    input.extend_from_slice(ONE_REACH)?;
    input.extend_from_slice(lines)?;
    Ok(input)
}

#[test]
fn keeps_its_last_state(rt: HostRuntime) -> Result<(), Fail> {
    let alloc = rt.alloc();
    let ran = run_words(alloc, &KEEPING, ONE_REACH, b"", List::new(alloc))?;
    assert_eq!(rt; ran.answer, Ok(Status::Done));
    assert_eq!(rt; ran.report.held(), ONE_REACH_REPORT);
    assert_eq!(rt; ran.hotstart.held(), LAST_STATE.as_slice());
    Ok(())
}

#[test]
fn goes_on_from_a_hotstart(rt: HostRuntime) -> Result<(), Fail> {
    let alloc = rt.alloc();
    let first = reach_with(alloc, b"[OPTIONS]\nEND_TIME 00:00:10\nWET_STEP 00:00:10\n")?;
    let half = run_words(alloc, &KEEPING, &first, b"", List::new(alloc))?;
    assert_eq!(rt; half.answer, Ok(Status::Done));
    let second = reach_with(
        alloc,
        b"[OPTIONS]\nSTART_TIME 00:00:10\nWET_STEP 00:00:10\n",
    )?;
    let words = [
        RESUMING[0],
        RESUMING[1],
        RESUMING[2],
        RESUMING[3],
        RESUMING[4],
        b"b.rpt".as_slice(),
    ];
    let ran = run_words(
        alloc,
        &words,
        &second,
        half.hotstart.held(),
        List::new(alloc),
    )?;
    assert_eq!(rt; ran.answer, Ok(Status::Done));
    assert_eq!(rt; ran.hotstart.held(), LAST_STATE.as_slice());
    Ok(())
}

#[test]
fn refuses_the_hotstart_of_another_network(rt: HostRuntime) -> Result<(), Fail> {
    let alloc = rt.alloc();
    let input = reach_with(alloc, b"[JUNCTIONS]\nJ2 0 3 1 0 0\n")?;
    let words = [
        b"run".as_slice(),
        b"a.inp".as_slice(),
        b"a.rpt".as_slice(),
        b"--hot-in".as_slice(),
        b"a.hot".as_slice(),
        b"--hot-out=b.hot".as_slice(),
    ];
    let ran = run_words(alloc, &words, &input, &LAST_STATE, List::new(alloc))?;
    assert_eq!(rt; ran.answer, Ok(Status::Refused));
    assert_eq!(rt;
        ran.report.held(),
        b"SWMM5-FX REPORT\n\nInput Faults\nERROR 404 hotstart: count of nodes 2 for 3\n".as_slice()
    );
    assert!(rt; ran.hotstart.held().is_empty());
    Ok(())
}

#[test]
fn keeps_the_report_where_the_hotstart_fails(rt: HostRuntime) -> Result<(), Fail> {
    let alloc = rt.alloc();
    let mut fails = List::new(alloc);
    fails.push(3)?;
    let ran = run_words(alloc, &KEEPING, ONE_REACH, b"", fails)?;
    assert_eq!(rt; ran.answer, Err(TopFault::Write(Port::HotOut)));
    assert_eq!(rt; ran.report.held(), ONE_REACH_REPORT);
    assert!(rt; LAST_STATE.starts_with(ran.hotstart.held()));
    assert!(rt; ran.hotstart.held().len() < 64);
    Ok(())
}

#[test]
fn runs_a_sample(rt: HostRuntime) -> Result<(), Fail> {
    let alloc = rt.alloc();
    let words = [b"demo".as_slice(), b"12345".as_slice(), b"a.rpt".as_slice()];
    let ran = run_words(alloc, &words, b"", b"", List::new(alloc))?;
    assert_eq!(rt; ran.answer, Ok(Status::Done));
    assert_eq!(rt; ran.report.held(), SAMPLE_REPORT);
    Ok(())
}

// The report of sample 12345, from a program that was written apart.
const SAMPLE_REPORT: &[u8] = b"SWMM5-FX DEMO 12345\n\
    \n\
    Flow Routing Continuity (mm3)\n\
    Inflow 1150200000000\n\
    Outfall 10661290000\n\
    Flooding 0\n\
    Storage Change 1133161151832\n\
    Error 6377558168\n\
    \n\
    Routing Steps\n\
    Steps 120\n\
    Trials 244\n\
    Not Converged 0\n\
    End of report\n";
