// The least time of a wave through the links of a run, after its last step.
ghost use Rattle.net_types.specs.Sound.{IsSound};
ghost use Rattle.project_check.specs.Faultless.{IsFaultless};

use fault_ports::MemSink;
use inp_reader::{Read, read_project};
use net_types::{List, OutOfMemory, Project};
use project_check::check;
use run_engine::open_run;
use std::alloc::Global;
use std::test::Fail;
use swmm_top::INPUT_LIMIT;

// One step of 10 s of a reach 100 m long, with two trials: after the first of them the water stands 1.005 m deep in its
// middle.
const ONE_STEP: &[u8] = b"[OPTIONS]\n\
    FLOW_UNITS CMS\n\
    START_DATE 01/01/2024\n\
    END_DATE 01/01/2024\n\
    END_TIME 00:00:10\n\
    ROUTING_STEP 10\n\
    REPORT_STEP 00:00:10\n\
    MAX_TRIALS 2\n\
    MIN_SURFAREA 50\n\
    INERTIAL_DAMPING FULL\n\
    [JUNCTIONS]\n\
    J1 0 3 1 0 0\n\
    [OUTFALLS]\n\
    O1 0 FIXED 1 NO\n\
    [CONDUITS]\n\
    C1 J1 O1 100 0.01 0 0 0 0\n\
    [XSECTIONS]\n\
    C1 RECT_OPEN 2 1 0 0 1\n\
    [INFLOWS]\n\
    J1 FLOW \"\" FLOW 1.0 1.0 0.1\n";

#[test]
fn a_wave_takes_its_time_through_a_reach(rt: HostRuntime) -> Result<(), Fail> {
    // 100 m by the root of gravity and that depth, and by the speed of the water.
    let mut rpt = MemSink::new(rt.alloc(), 4096, List::new(rt.alloc()), 16)?;
    let time = time_of_input(rt.alloc(), ONE_STEP, &mut rpt);
    let told = match time {
        Ok(Some(time)) => time,
        Ok(None) => -2,
        Err(OutOfMemory) => -1,
    };
    assert_eq!(rt; told, 31_791);
    Ok(())
}

// The time in ms after all steps of an input's run; none for an input that has no run.
fn time_of_input(
    alloc: Global,
    input: &[u8],
    rpt: &mut MemSink,
) -> Result<Option<i64>, OutOfMemory> {
    if input.len() > INPUT_LIMIT {
        return Ok(None);
    }
    match read_project(alloc, input) {
        Ok(Read::Accepted(project)) => time_of_project(alloc, project, rpt),
        Ok(Read::Refused(_)) => Ok(None),
        Err(OutOfMemory) => Err(OutOfMemory),
    }
}

fn time_of_project(
    alloc: Global,
    project: Project,
    rpt: &mut MemSink,
) -> Result<Option<i64>, OutOfMemory>
    requires { IsSound project }
{
    let faults = check(alloc, &project)?;
    match faults.as_slice() {
        [] => time_of_run(alloc, project, rpt),
        [_, ..] => Ok(None),
    }
}

fn time_of_run(
    alloc: Global,
    project: Project,
    rpt: &mut MemSink,
) -> Result<Option<i64>, OutOfMemory>
    requires { IsFaultless project }
{
    let mut run = open_run(alloc, project, None)?;
    let made = run.advance_alone(rpt);
    let time = run.least_travel_time();
    drop(run);
    match made {
        Ok(()) => Ok(Some(time)),
        Err(_) => Ok(None),
    }
}
