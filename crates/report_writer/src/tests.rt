// Parts of a report, beside texts that were worked out apart from the program.
use crate::totals::add_runoff;
use crate::{add_step_line, add_steps_heading};
use fault_ports::MemSink;
use net_types::{List, StepAccount};
use report_port::Report;
use runoff::SubStep;
use std::test::Fail;

#[test]
fn a_step_line(rt: HostRuntime) -> Result<(), Fail> {
    let account = StepAccount {
        inflow: 146_335_380_000,
        outfall: 4_000_000_000,
        flooding: 140_769_222_449,
        storage: 14_033_420_000,
        error: -12_467_262_449,
    };
    let mut sink = MemSink::new(rt.alloc(), 4096, List::new(rt.alloc()), 64)?;
    let mut report = Report::new(&mut sink);
    add_steps_heading(&mut report);
    add_step_line(&mut report, &900_000, &account);
    assert!(rt; report.end().is_ok());
    drop(report);
    assert_eq!(rt;
        sink.held(),
        b"\nStep Continuity (mm3)\n900000 146335380000 144769222449 14033420000 -12467262449\n".as_slice()
    );
    Ok(())
}

#[test]
fn what_became_of_the_rain(rt: HostRuntime) -> Result<(), Fail> {
    let total = SubStep {
        rain: 1_240_000_080_000,
        infil: 401_863_896_000,
        runoff: 456_549_140_750,
        stored: 381_587_043_250,
    };
    let mut sink = MemSink::new(rt.alloc(), 4096, List::new(rt.alloc()), 64)?;
    let mut report = Report::new(&mut sink);
    add_runoff(&mut report, &total);
    assert!(rt; report.end().is_ok());
    drop(report);
    assert_eq!(rt;
        sink.held(),
        b"\nRunoff Quantity Continuity (mm3)\nRain 1240000080000\nInfiltration 401863896000\n\
            Runoff 456549140750\nStorage Change 381587043250\nError 0\n"
            .as_slice()
    );
    Ok(())
}
