ghost use Rattle.std.specs.Prelude.{◌<◌};
ghost use Rattle.phase_law.specs.Ranges.{LinkFixedInRange};
ghost use Rattle.phase_law.specs.FortyLinks.{forty_links, forty_links_good};

use crate::law::PhaseLaw;
use crate::values::{LinkFixed, NodeFixed, NodeNext, Share};

/// Forty links from node 1 to node 0, each with the same share; the nodes keep their heads.
#[derive(Clone, Copy)]
struct FortyLinks;

impl PhaseLaw for FortyLinks {
    ghost law = { λ _. forty_links };

    ghost good = { λ _. forty_links_good };

    fn nodes(&self) -> u32 {
        2
    }

    fn links(&self) -> u32 {
        40
    }

    fn head_limit(&self) -> i64 {
        1_000_000
    }

    fn ends(&self, _link: u32) -> (u32, u32) {
        (1, 0)
    }

    fn link_share(
        &self,
        _link: u32,
        _fixed: &LinkFixed,
        _first: bool,
        _near: i64,
        _far: i64,
        _last: i64,
    ) -> Share {
        Share {
            q: 7,
            area1: 1,
            area2: 2,
            time: 3_600_000,
        }
    }

    fn node_next(
        &self,
        _node: u32,
        _fixed: &NodeFixed,
        _first: bool,
        _inflow: i64,
        _outflow: i64,
        _area: i64,
        last: i64,
    ) -> NodeNext {
        NodeNext {
            head: last,
            settled: true,
        }
    }
}

/// Two counts and a share, asked through the trait alone.
fn counts_and_flow<P: PhaseLaw>(law: &P, fixed: &LinkFixed) -> (u32, u32, i64)
    requires links { 0 < (P.law law.now).links }
    requires fixed { LinkFixedInRange fixed.now }
{
    let share = law.link_share(0, fixed, true, 0, 0, 0);
    (law.nodes(), law.links(), share.q)
}

#[test]
fn a_borrowed_law_is_a_law(rt: HostRuntime) {
    let law = FortyLinks;
    let fixed = LinkFixed {
        q_old: 0,
        a_old: 0,
        setting: 1_000_000,
        dt: 10_000,
    };
    assert_eq!(rt; counts_and_flow(&law, &fixed), (2, 40, 7));
    assert_eq!(rt; counts_and_flow(&&law, &fixed), (2, 40, 7));
}
