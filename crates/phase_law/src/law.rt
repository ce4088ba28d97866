ghost use Rattle.std.specs.Prelude.{◌≡◌, ◌<◌, pos};
ghost use Rattle.fixed_num.specs.Ranges.{IsFlow};
ghost use Rattle.phase_law.specs.Law.{Law};
ghost use Rattle.phase_law.specs.Laws.{IsLaw};
ghost use Rattle.phase_law.specs.Ranges.{HeadInRange, LinkFixedInRange, NodeFixedInRange, SumsInRange};

use crate::values::{LinkFixed, NodeFixed, NodeNext, Share};

/// How the links and nodes of a network behave in a trial.
///
/// Links and nodes are numbered from 0, at most 20,000 of each. Heads are µm within the head limit, flows
/// cm³/s, areas mm². `first` is true in the first trial of a step.
///
/// Source: Reference Manual volume II, chapter 3 (successive approximations); the ranges are this
/// project's profile.
pub trait PhaseLaw: Drop {
    ghost law: { Self → Law };

    /// The number of nodes, at most 20,000.
    fn nodes(&self) -> u32
        ensures { result ≡ (law self.now).nodes };

    /// The number of links, at most 20,000.
    fn links(&self) -> u32
        ensures { result ≡ (law self.now).links };

    /// The greatest head above or below 0 (µm), 1 to 10^15.
    fn head_limit(&self) -> i64
        ensures { result ≡ pos (law self.now).limit };

    /// The first and the second end of a link: two different nodes.
    fn ends(&self, link: u32) -> (u32, u32)
        requires { link < (law self.now).links }
        ensures { result ≡ (law self.now).ends link };

    /// The flow, the areas and the travel time of a link, from the heads at its ends and its flow in the last trial.
    fn link_share(
        &self,
        link: u32,
        fixed: &LinkFixed,
        first: bool,
        near: i64,
        far: i64,
        last: i64,
    ) -> Share
        requires link { link < (law self.now).links }
        requires fixed { LinkFixedInRange fixed.now }
        requires near { HeadInRange (law self.now) near }
        requires far { HeadInRange (law self.now) far }
        requires last { IsFlow last }
        ensures { result ≡ (law self.now).share link fixed.now first near far last };

    /// The next head of a node, from its inflow, outflow and area in this trial and its head in the last.
    fn node_next(
        &self,
        node: u32,
        fixed: &NodeFixed,
        first: bool,
        inflow: i64,
        outflow: i64,
        area: i64,
        last: i64,
    ) -> NodeNext
        requires node { node < (law self.now).nodes }
        requires fixed { NodeFixedInRange (law self.now) fixed.now }
        requires sums { SumsInRange inflow outflow area }
        requires last { HeadInRange (law self.now) last }
        ensures { result ≡ (law self.now).next node fixed.now first inflow outflow area last };

    ghost good: { (s : Self) → IsLaw (law s) };
}

impl<P: PhaseLaw> PhaseLaw for &P {
    ghost law = { λ s. P.law s.now };

    ghost good = { λ s. P.good s.now };

    fn nodes(&self) -> u32 {
        (**self).nodes()
    }

    fn links(&self) -> u32 {
        (**self).links()
    }

    fn head_limit(&self) -> i64 {
        (**self).head_limit()
    }

    fn ends(&self, link: u32) -> (u32, u32) {
        (**self).ends(link)
    }

    fn link_share(
        &self,
        link: u32,
        fixed: &LinkFixed,
        first: bool,
        near: i64,
        far: i64,
        last: i64,
    ) -> Share {
        (**self).link_share(link, fixed, first, near, far, last)
    }

    fn node_next(
        &self,
        node: u32,
        fixed: &NodeFixed,
        first: bool,
        inflow: i64,
        outflow: i64,
        area: i64,
        last: i64,
    ) -> NodeNext {
        (**self).node_next(node, fixed, first, inflow, outflow, area, last)
    }
}
