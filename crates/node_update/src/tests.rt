ghost use Rattle.std.specs.Prelude.{◌*◌, ◌^◌, pos};
ghost use Rattle.fixed_num.specs.Ranges.{IsBetween, IsNodeArea};
ghost use Rattle.node_update.specs.NodeLaws.{IsNodeLaw};
ghost use Rattle.node_update.specs.NodeUpdate.{IsNodeFixed};

use crate::{NodeLaw, NodeRule};
use phase_law::NodeFixed;

// A junction of a least area of 50 m², its invert at 0, that is full at this height and ponds over this area.
fn junction(full: i64, pond: i64, top: i64) -> NodeLaw
    requires full { IsBetween (pos 0) full (pos (2 * 10 ^ 9)) }
    requires pond { IsNodeArea pond }
    requires top { IsBetween (pos 0) top (pos (3 * 10 ^ 9)) }
    ensures { IsNodeLaw result }
{
    NodeLaw {
        rule: NodeRule::Junction { pond },
        invert: 0,
        full,
        top,
        min_area: 50_000_000,
        tolerance: 1_524,
    }
}

// Ten seconds from a head of 1 m, with a tenth of a cubic metre a second coming in all the time.
fn filling() -> NodeFixed
    ensures { IsNodeFixed result }
{
    NodeFixed {
        h_old: 1_000_000,
        net_old: 100_000,
        lateral: 100_000,
        stage: 0,
        dt: 10_000,
    }
}

// The same with nothing coming in.
fn resting() -> NodeFixed
    ensures { IsNodeFixed result }
{
    NodeFixed {
        h_old: 1_000_000,
        net_old: 0,
        lateral: 0,
        stage: 0,
        dt: 10_000,
    }
}

#[test]
fn a_full_junction_floods(rt: HostRuntime) {
    let law = junction(1_000_000, 0, 1_000_000);
    let fixed = filling();
    let next = law.next(&fixed, true, 0, 0, 0, 1_000_000);
    assert_eq!(rt; next.head, 1_000_000);
    assert_eq!(rt; law.flood(&fixed, 0, 0, 0, 1_000_000), 1_000_000_000);
    assert_eq!(rt; law.volume(1_000_000), 50_000_000_000);
}

#[test]
fn a_junction_ponds(rt: HostRuntime) {
    let law = junction(1_000_000, 100_000_000, 1_001_000_000);
    let fixed = filling();
    let next = law.next(&fixed, true, 0, 0, 0, 1_000_000);
    assert_eq!(rt; next.head, 1_010_000);
    assert_eq!(rt; law.flood(&fixed, 0, 0, 0, 1_000_000), 0);
    assert_eq!(rt;
        law.volume(1_010_000) - law.volume(1_000_000),
        1_000_000_000
    );
}

#[test]
fn a_junction_fills(rt: HostRuntime) {
    let law = junction(3_000_000, 0, 3_000_000);
    let fixed = filling();
    let next = law.next(&fixed, true, 0, 0, 50_000_000, 1_000_000);
    assert_eq!(rt; next.head, 1_010_000);
    let next = law.next(&fixed, false, 0, 4_932, 50_000_000, 1_010_000);
    assert_eq!(rt; (next.head, next.settled), (1_009_877, true));
    let fixed = resting();
    let next = law.next(&fixed, true, 103_053, 0, 50_000_000, 1_000_000);
    assert_eq!(rt; next.head, 1_005_153);
}
