// What commands answer and report whose ports don't fail.
use crate::commands::{BYTE_BY_BYTE, LARGE_PIECES, NO_TROUBLE, Ran, check_over, run_over, words};
use crate::reaches::{
    BACKWATER, BACKWATER_FIGURES, FEET, FEET_FIGURES, FIRST_STEP, FIRST_STEP_FIGURES, NO_STEPS,
    NO_STEPS_REPORT, ONE_REACH, ONE_REACH_ACCEPTED, ONE_REACH_REPORT, ONE_TRIAL, ONE_TRIAL_FIGURES,
    OTHER_LINE_ENDS, WARNED, WARNED_HEAD,
};
use crate::refusals::{
    BACKWARD_INPUT, BACKWARD_REPORT, EMPTY_REPORT, FAULTY_INPUT, FAULTY_REPORT, OVER_LIMIT_REPORT,
    REACH, TOO_LONG_REPORT,
};
use fault_ports::{MemSink, MemSource, OpenGate};
use net_types::{List, Text};
use std::alloc::{AllocError, Global};
use std::test::Fail;
use swmm_top::{INPUT_LIMIT, Status, file_names, swmm_top};

// What a report is to be.
#[derive(Drop)]
enum Expected {
    Whole(&'static [u8]),
    Begins(&'static [u8]),
    Ends(&'static [u8]),
}

// An input, the status that its run ends with, and its report.
#[derive(Drop)]
struct Example {
    input: &'static [u8],
    status: Status,
    report: Expected,
}

fn examples() -> [Example; 11] {
    [
        done(ONE_REACH, Expected::Whole(ONE_REACH_REPORT)),
        done(OTHER_LINE_ENDS, Expected::Whole(ONE_REACH_REPORT)),
        done(BACKWATER, Expected::Ends(BACKWATER_FIGURES)),
        done(ONE_TRIAL, Expected::Ends(ONE_TRIAL_FIGURES)),
        done(FIRST_STEP, Expected::Ends(FIRST_STEP_FIGURES)),
        done(FEET, Expected::Ends(FEET_FIGURES)),
        done(WARNED, Expected::Begins(WARNED_HEAD)),
        done(NO_STEPS, Expected::Whole(NO_STEPS_REPORT)),
        refused(b"", EMPTY_REPORT),
        refused(FAULTY_INPUT, FAULTY_REPORT),
        refused(BACKWARD_INPUT, BACKWARD_REPORT),
    ]
}

fn done(input: &'static [u8], report: Expected) -> Example {
    Example {
        input,
        status: Status::Done,
        report,
    }
}

fn refused(input: &'static [u8], report: &'static [u8]) -> Example {
    Example {
        input,
        status: Status::Refused,
        report: Expected::Whole(report),
    }
}

fn is_met(expected: &Expected, report: &[u8]) -> bool {
    match expected {
        Expected::Whole(text) => report == *text,
        Expected::Begins(text) => report.starts_with(text),
        Expected::Ends(text) => report.ends_with(text),
    }
}

fn shows(ran: &Ran, example: &Example) -> bool {
    ran.answer == Ok(example.status) && is_met(&example.report, ran.report.held())
}

#[test]
fn runs_give_their_reports(rt: HostRuntime) -> Result<(), Fail> {
    for example in examples().iter() {
        let ran = run_over(rt.alloc(), example.input, &NO_TROUBLE)?;
        assert!(rt; shows(&ran, example));
    }
    Ok(())
}

#[test]
fn reads_an_input_in_pieces(rt: HostRuntime) -> Result<(), Fail> {
    let ran = run_over(rt.alloc(), ONE_REACH, &BYTE_BY_BYTE)?;
    assert_eq!(rt; ran.answer, Ok(Status::Done));
    assert_eq!(rt; ran.report.held(), ONE_REACH_REPORT);
    Ok(())
}

#[test]
fn accepts_a_reach(rt: HostRuntime) -> Result<(), Fail> {
    let ran = check_over(rt.alloc(), ONE_REACH, &NO_TROUBLE)?;
    assert_eq!(rt; ran.answer, Ok(Status::Done));
    assert_eq!(rt; ran.report.held(), ONE_REACH_ACCEPTED);
    Ok(())
}

// The input of the reach whose run ends at a date.
fn reach_until(alloc: Global, end_date: &[u8]) -> Result<Vec<u8>, AllocError> {
    let mut bytes = Vec::new(alloc);
    bytes.extend_from_slice(REACH)?;
    bytes.extend_from_slice(end_date)?;
    Ok(bytes)
}

#[test]
fn refuses_a_run_that_lasts_too_long(rt: HostRuntime) -> Result<(), Fail> {
    let alloc = rt.alloc();
    let ran = run_over(alloc, &reach_until(alloc, b"01/01/2100\n")?, &NO_TROUBLE)?;
    assert_eq!(rt; ran.answer, Ok(Status::Refused));
    assert_eq!(rt; ran.report.held(), OVER_LIMIT_REPORT);
    let ran = run_over(alloc, &reach_until(alloc, b"01/02/2000\n")?, &NO_TROUBLE)?;
    assert_eq!(rt; ran.answer, Ok(Status::Done));
    Ok(())
}

// An input of line feeds alone.
fn line_feeds(alloc: Global, count: usize) -> Result<Vec<u8>, AllocError> {
    let mut bytes = Vec::new(alloc);
    bytes.resize(count, b'\n')?;
    Ok(bytes)
}

#[test]
fn refuses_one_byte_past_the_limit(rt: HostRuntime) -> Result<(), Fail> {
    let alloc = rt.alloc();
    let ran = run_over(alloc, &line_feeds(alloc, INPUT_LIMIT + 1)?, &LARGE_PIECES)?;
    assert_eq!(rt; ran.answer, Ok(Status::Refused));
    assert_eq!(rt; ran.report.held(), TOO_LONG_REPORT);
    Ok(())
}

#[test]
fn hands_on_each_command(rt: HostRuntime) -> Result<(), Fail> {
    let alloc = rt.alloc();
    for mode in [b"run".as_slice(), b"check".as_slice()] {
        let words = words(alloc, mode)?;
        let mut inp = MemSource::new(Text::from_slice(alloc, b"")?, List::new(alloc), 64);
        let mut hot_in = MemSource::new(Text::from_slice(alloc, b"")?, List::new(alloc), 1);
        let mut report = MemSink::new(alloc, 4096, List::new(alloc), 4096)?;
        let mut hot_out = MemSink::new(alloc, 0, List::new(alloc), 1)?;
        let answer = swmm_top(
            &rt,
            alloc,
            &words,
            &mut inp,
            &mut hot_in,
            &mut report,
            &mut hot_out,
            &OpenGate,
        );
        assert_eq!(rt; answer, Ok(Status::Refused));
        assert_eq!(rt; report.held(), EMPTY_REPORT);
    }
    Ok(())
}

#[test]
fn names_the_files_of_a_command(rt: HostRuntime) -> Result<(), Fail> {
    let alloc = rt.alloc();
    let Some(names) = file_names(alloc, &words(alloc, b"run")?)? else {
        return Err("no names".into());
    };
    assert_eq!(rt; names.rpt.as_slice(), b"a.rpt".as_slice());
    assert!(rt; file_names(alloc, &words(alloc, b"demo")?)?.is_none());
    Ok(())
}
