// The sample of a number, beside the same text made apart from the program.
use crate::sample_text;
use std::test::Fail;

const HEAD: &[u8] = b"[OPTIONS]\n\
    FLOW_UNITS CMS\n\
    START_DATE 01/01/2024\n\
    END_DATE 01/01/2024\n\
    END_TIME 00:10:00\n\
    ROUTING_STEP 5\n\
    REPORT_STEP 00:01:00\n\
    [JUNCTIONS]\n\
    J0 1.00 0 0 0 0\n\
    J1 1.10 0 0 0 0\n\
    J2 1.11 0 0 0 0\n\
    J3 1.14 0 0 0 0\n\
    J4 1.30 0 0 0 0\n\
    J5 1.29 0 0 0 0\n";

const LAST_INFLOWS: &[u8] = b"J398 FLOW \"\" FLOW 1.0 1.0 0.003\n\
    J399 FLOW \"\" FLOW 1.0 1.0 0.006\n";

#[test]
fn the_sample_of_seven(rt: HostRuntime) -> Result<(), Fail> {
    let text = sample_text(rt.alloc(), 7)?;
    let bytes = text.as_slice();
    assert_eq!(rt; bytes.len(), 43_388);
    assert!(rt; bytes.starts_with(HEAD));
    assert!(rt; bytes.ends_with(LAST_INFLOWS));
    Ok(())
}
