ghost use Rattle.phase_law.specs.FortyLinks.{forty_links, forty_links_good};

use crate::flow_sums::sum_flows;
use crate::nets::Nets;
use crate::step::{StepEnd, step_alone};
use crate::sums::clear;
use crate::trial::trial_alone;
use net_types::OutOfMemory;
use phase_law::{LinkFixed, NodeFixed, NodeNext, PhaseLaw, Share};

/// Forty links from node 1 to node 0, each with the same share; the nodes keep their heads.
#[derive(Clone, Copy)]
struct FortyLinks;

impl PhaseLaw for FortyLinks {
    ghost law = { λ _. forty_links };

    ghost good = { λ _. forty_links_good };

    fn nodes(&self) -> u32 {
        2
    }

    fn links(&self) -> u32 {
        40
    }

    fn head_limit(&self) -> i64 {
        1_000_000
    }

    fn ends(&self, _link: u32) -> (u32, u32) {
        (1, 0)
    }

    fn link_share(
        &self,
        _link: u32,
        _fixed: &LinkFixed,
        _first: bool,
        _near: i64,
        _far: i64,
        _last: i64,
    ) -> Share {
        Share {
            q: 7,
            area1: 1,
            area2: 2,
            time: 3_600_000,
        }
    }

    fn node_next(
        &self,
        _node: u32,
        _fixed: &NodeFixed,
        _first: bool,
        _inflow: i64,
        _outflow: i64,
        _area: i64,
        last: i64,
    ) -> NodeNext {
        NodeNext {
            head: last,
            settled: true,
        }
    }
}

#[test]
fn forty_links_add_up_and_settle(rt: HostRuntime) -> Result<(), OutOfMemory> {
    let mut nets = Nets::with_room(rt.alloc(), 2, 40)?;
    assert_eq!(rt; trial_alone(&FortyLinks, &mut nets, true), 0);
    assert_eq!(rt; nets.inflows.as_slice(), [280, 0].as_slice());
    assert_eq!(rt; nets.outflows.as_slice(), [0, 280].as_slice());
    assert_eq!(rt; nets.areas.as_slice(), [80, 40].as_slice());
    assert_eq!(rt; nets.least, 3_600_000);
    let end = step_alone(&FortyLinks, &mut nets, 20);
    assert_eq!(rt;
        end,
        StepEnd {
            trials: 2,
            settled: true
        }
    );
    assert_eq!(rt; nets.inflows.as_slice(), [280, 0].as_slice());
    Ok(())
}

#[test]
fn flows_of_a_state_add_up(rt: HostRuntime) -> Result<(), OutOfMemory> {
    let mut nets = Nets::with_room(rt.alloc(), 2, 40)?;
    trial_alone(&FortyLinks, &mut nets, true);
    clear(&mut nets.inflows);
    sum_flows(&FortyLinks, &mut nets);
    assert_eq!(rt; nets.inflows.as_slice(), [280, 0].as_slice());
    assert_eq!(rt; nets.outflows.as_slice(), [0, 280].as_slice());
    Ok(())
}

#[test]
fn an_empty_state_has_no_items(rt: HostRuntime) {
    let nets = Nets::empty(rt.alloc());
    assert_eq!(rt; nets.heads.as_slice().len(), 0);
    assert_eq!(rt; nets.links.as_slice().len(), 0);
}
