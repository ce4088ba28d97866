use crate::read_options;
use inp_lines::split_lines;
use net_types::{Damping, FlowUnits, List};
use std::test::Fail;

#[test]
fn options_of_one_reach(rt: HostRuntime) -> Result<(), Fail> {
    let alloc = rt.alloc();
    let lines = split_lines(
        alloc,
        b"[OPTIONS]\nMIN_SURFAREA 50\nFLOW_UNITS CMS\nSTART_DATE 01/01/2024\nEND_DATE 01/01/2024\nEND_TIME 00:00:20\nROUTING_STEP 10\nREPORT_STEP 00:00:10\nMAX_TRIALS 2\nINERTIAL_DAMPING FULL\nMAX_TRIALS 21\n",
    )?;
    let mut faults = List::new(alloc);
    let (options, warnings) = read_options(alloc, &lines, &mut faults)?;
    assert_eq!(rt; options.units, FlowUnits::Cms);
    assert_eq!(rt; options.start, 1_704_067_200_000);
    assert_eq!(rt; options.finish, 1_704_067_220_000);
    assert_eq!(rt; (options.step_ms, options.report_ms), (10_000, 10_000));
    assert_eq!(rt; options.max_trials, 2);
    assert_eq!(rt; options.min_area, 50_000_000);
    assert_eq!(rt; options.damping, Damping::Full);
    assert_eq!(rt; warnings.as_slice().len(), 0);
    assert_eq!(rt; faults.as_slice().len(), 1);
    for fault in faults.as_slice() {
        assert_eq!(rt; (fault.line, fault.number), (11, 402));
        assert_eq!(rt; fault.token.as_slice(), b"21".as_slice());
    }
    Ok(())
}
