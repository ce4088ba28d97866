use crate::{Read, read_project};
use net_types::{Section, Shape};
use std::test::Fail;

const ONE_REACH: &[u8] = b"[TITLE]
 one reach ; of a channel
[OPTIONS]
FLOW_UNITS CMS
START_DATE 01/01/2024
END_DATE 01/01/2024
END_TIME 00:00:20
ROUTING_STEP 10
REPORT_STEP 00:00:10
MAX_TRIALS 2
MIN_SURFAREA 50
INERTIAL_DAMPING FULL
[JUNCTIONS]
J1 0 3 1 0 0
[OUTFALLS]
O1 0 FIXED 1 NO
[CONDUITS]
C1 J1 O1 100 0.01 0 0 0 0
[XSECTIONS]
C1 RECT_OPEN 2 1 0 0 1
[INFLOWS]
J1 FLOW \"\" FLOW 1.0 1.0 0.1
";

#[test]
fn reads_one_reach(rt: HostRuntime) -> Result<(), Fail> {
    match read_project(rt.alloc(), ONE_REACH)? {
        Read::Refused(_) => assert!(rt; false),
        Read::Accepted(project) => {
            for line in project.title.as_slice() {
                assert_eq!(rt; line.as_slice(), b"one reach".as_slice());
            }
            assert_eq!(rt; project.title.as_slice().len(), 1);
            assert_eq!(rt; project.nodes.as_slice().len(), 2);
            assert_eq!(rt; project.inflows.as_slice().len(), 1);
            assert_eq!(rt; project.options.step_ms, 10_000);
            for link in project.links.as_slice() {
                let channel = Section {
                    shape: Shape::RectOpen { width: 1_000_000 },
                    full: 2_000_000,
                    barrels: 1,
                };
                assert_eq!(rt; (link.first, link.second), (0, 1));
                assert_eq!(rt; link.section, Some(channel));
            }
        }
    }
    Ok(())
}

#[test]
fn gives_faults_in_line_order(rt: HostRuntime) -> Result<(), Fail> {
    let input = b"[JUNCTIONS]\nJ1\nJ1 x\nJ2 0\nJ2 0\n[PUMPS]\nP1 J1 J2 *\n[MAP]\nx\n[FOO] bar\nx\n";
    match read_project(rt.alloc(), input)? {
        Read::Accepted(_) => assert!(rt; false),
        Read::Refused(faults) => {
            let expected = [
                (2, 203, b"J1".as_slice()),
                (3, 211, b"x".as_slice()),
                (5, 207, b"J2".as_slice()),
                (7, 401, b"*".as_slice()),
                (10, 205, b"[FOO]".as_slice()),
            ];
            assert_eq!(rt; faults.as_slice().len(), 5);
            for (fault, (line, number, token)) in faults.as_slice().iter().zip(expected.iter()) {
                assert_eq!(rt; (fault.line, fault.number), (*line, *number));
                assert_eq!(rt; fault.token.as_slice(), *token);
            }
        }
    }
    Ok(())
}

// A hundred and one lines with too few items: the faults of the first hundred, lines 2 to 101.
#[test]
fn tells_a_hundred_faults(rt: HostRuntime) -> Result<(), Fail> {
    let alloc = rt.alloc();
    let mut input = Vec::new(alloc);
    input.extend_from_slice(b"[JUNCTIONS]\n")?;
    for _ in 0..101 {
        input.extend_from_slice(b"J1\n")?;
    }
    assert!(rt; input.len() <= 33_554_432);
    match read_project(alloc, &input)? {
        Read::Accepted(_) => assert!(rt; false),
        Read::Refused(faults) => {
            let lines = faults.as_slice();
            assert_eq!(rt; lines.len(), 100);
            assert_eq!(rt; (lines[0].line, lines[0].number), (2, 203));
            assert_eq!(rt; (lines[99].line, lines[99].number), (101, 203));
        }
    }
    Ok(())
}
