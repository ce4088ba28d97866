// What commands answer whose ports fail at a call, and what they leave.
use crate::commands::{Ran, Trouble, check_over, run_over};
use crate::reaches::{ONE_REACH, ONE_REACH_ACCEPTED, ONE_REACH_REPORT};
use crate::refusals::{EMPTY_REPORT, FAULTY_INPUT, FAULTY_REPORT};
use fault_ports::Sink;
use net_types::OutOfMemory;
use std::alloc::Global;
use std::test::Fail;
use swmm_top::{Port, Status, TopFault};

// The third put fails.
const THIRD_PUT: Trouble<'static> = Trouble {
    reads: &[],
    puts: &[3],
    most: 64,
};

// The third read fails.
const THIRD_READ: Trouble<'static> = Trouble {
    reads: &[3],
    puts: &[],
    most: 2,
};

// A command on an input: a check or a run, the status with which it ends, and its whole report.
#[derive(Drop)]
struct Command {
    is_check: bool,
    input: &'static [u8],
    status: Status,
    report: &'static [u8],
}

fn commands() -> [Command; 4] {
    [
        Command {
            is_check: false,
            input: ONE_REACH,
            status: Status::Done,
            report: ONE_REACH_REPORT,
        },
        Command {
            is_check: true,
            input: ONE_REACH,
            status: Status::Done,
            report: ONE_REACH_ACCEPTED,
        },
        Command {
            is_check: false,
            input: FAULTY_INPUT,
            status: Status::Refused,
            report: FAULTY_REPORT,
        },
        Command {
            is_check: true,
            input: b"",
            status: Status::Refused,
            report: EMPTY_REPORT,
        },
    ]
}

// What a command gives where its put of this number fails, and would where one came after it.
fn stopped_at(alloc: Global, command: &Command, number: u64) -> Result<Ran, OutOfMemory> {
    let puts = [number, number.saturating_add(1)];
    let trouble = Trouble {
        reads: &[],
        puts: &puts,
        most: 4096,
    };
    if command.is_check {
        check_over(alloc, command.input, &trouble)
    } else {
        run_over(alloc, command.input, &trouble)
    }
}

// Whether a command ended before a put of it could fail.
fn is_whole(ran: &Ran, command: &Command) -> bool {
    ran.answer == Ok(command.status) && ran.report.held() == command.report
}

// Whether a command ended at the put that failed: what it put is a front of its report, and the next put, which is the
// one after, fails while a third doesn't.
fn keeps_front(ran: &mut Ran, command: &Command) -> bool {
    let is_front = command.report.starts_with(ran.report.held());
    let is_next = ran.report.put(b"x").is_err() && ran.report.put(b"x").is_ok();
    ran.answer == Err(TopFault::Write(Port::Rpt)) && is_front && is_next
}

#[test]
fn keeps_a_front_whichever_put_fails(rt: HostRuntime) -> Result<(), Fail> {
    for command in commands().iter() {
        let mut ended = false;
        for number in 1..1000 {
            let mut ran = stopped_at(rt.alloc(), command, number)?;
            if is_whole(&ran, command) {
                ended = true;
                break;
            }
            assert!(rt; keeps_front(&mut ran, command), "put {number}");
        }
        assert!(rt; ended);
    }
    Ok(())
}

#[test]
fn keeps_what_a_run_put_before_a_fault(rt: HostRuntime) -> Result<(), Fail> {
    for (input, report) in [
        (ONE_REACH, ONE_REACH_REPORT),
        (b"".as_slice(), EMPTY_REPORT),
    ] {
        let ran = run_over(rt.alloc(), input, &THIRD_PUT)?;
        let held = ran.report.held();
        assert_eq!(rt; ran.answer, Err(TopFault::Write(Port::Rpt)));
        assert!(rt; report.starts_with(held));
        assert!(rt; held.len() <= 32);
    }
    Ok(())
}

#[test]
fn keeps_what_a_check_put_before_a_fault(rt: HostRuntime) -> Result<(), Fail> {
    let ran = check_over(rt.alloc(), ONE_REACH, &THIRD_PUT)?;
    let held = ran.report.held();
    assert_eq!(rt; ran.answer, Err(TopFault::Write(Port::Rpt)));
    assert!(rt; ONE_REACH_ACCEPTED.starts_with(held));
    assert!(rt; held.len() <= 32);
    Ok(())
}

#[test]
fn puts_nothing_after_a_read_fault(rt: HostRuntime) -> Result<(), Fail> {
    for input in [ONE_REACH, b"[TITLE]".as_slice()] {
        let ran = run_over(rt.alloc(), input, &THIRD_READ)?;
        assert_eq!(rt; ran.answer, Err(TopFault::Read(Port::Inp)));
        assert!(rt; ran.report.held().is_empty());
    }
    Ok(())
}
