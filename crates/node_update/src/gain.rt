// What a node gains over a step, and what it would do with it.
ghost use Rattle.std.specs.Prelude.{◌≡◌, ◌*◌, ◌^◌, ℤ, pos};
ghost use Rattle.fixed_num.specs.Ranges.{IsBetween, IsHead, IsWithin};
ghost use Rattle.node_update.specs.NodeLaws.{IsNodeLaw};
ghost use Rattle.node_update.specs.NodeUpdate.{IsNodeFixed, net_of, gain_of, own_area_of, surface_of, raised_of};
ghost use Rattle.node_update.specs.NodeUpdate.{excess_of};
ghost use Rattle.phase_law.specs.Ranges.{SumsInRange};

use crate::node_law::{NodeLaw, NodeRule};
use fixed_num::quo;
use phase_law::NodeFixed;

// The net inflow at the end of a step, in cm³/s.
fn net(fixed: &NodeFixed, inflow: i64, outflow: i64) -> i64
    requires fixed { IsNodeFixed fixed.now }
    requires inflow { IsBetween (pos 0) inflow (pos (2 * 10 ^ 16)) }
    requires outflow { IsBetween (pos 0) outflow (pos (2 * 10 ^ 16)) }
    ensures value { result ≡ net_of fixed.now inflow outflow }
    ensures range { IsWithin (5 * 10 ^ 16) result }
{
    fixed.lateral + inflow - outflow
}

/// The water that comes in at a node over a step, in mm³: half its length by the net inflows at its two ends.
///
/// `inflow` and `outflow` are those by links, in cm³/s.
/// Source: this project's profile.
pub fn gain(fixed: &NodeFixed, inflow: i64, outflow: i64) -> i128
    requires fixed { IsNodeFixed fixed.now }
    requires inflow { IsBetween (pos 0) inflow (pos (2 * 10 ^ 16)) }
    requires outflow { IsBetween (pos 0) outflow (pos (2 * 10 ^ 16)) }
    ensures value { result ≡ gain_of fixed.now inflow outflow }
    ensures range { IsWithin (10 ^ 24) result }
{
    let nets = fixed.net_old + net(fixed, inflow, outflow);
    (fixed.dt / 2) as i128 * nets as i128
}

impl NodeLaw {
    // The node's own area at the last head, in mm².
    fn own_area(&self, last: i64) -> i64
        requires law { IsNodeLaw self.now }
        requires last { IsHead last }
        ensures value { result ≡ own_area_of self.now.rule self.now last }
        ensures range { IsBetween (pos 1) result (pos (10 ^ 13)) }
    {
        match &self.rule {
            NodeRule::Junction { pond } => self.junction_area(*pond, last),
            NodeRule::Storage(table) => self.storage_area(table.get(), last),
            NodeRule::Outfall(_) => self.min_area,
        }
    }

    // The surface over which the gain spreads, in mm².
    fn surface(&self, area: i64, last: i64) -> i64
        requires law { IsNodeLaw self.now }
        requires area { IsBetween (pos 0) area (pos (10 ^ 17)) }
        requires last { IsHead last }
        ensures value { result ≡ surface_of self.now area last }
        ensures range { IsBetween (pos 1) result (pos (2 * 10 ^ 17)) }
    {
        self.own_area(last) + area
    }

    // The head, in µm, to which the gain would raise the node if that had no top.
    pub(crate) fn raised(
        &self,
        fixed: &NodeFixed,
        inflow: i64,
        outflow: i64,
        area: i64,
        last: i64,
    ) -> i128
        requires law { IsNodeLaw self.now }
        requires fixed { IsNodeFixed fixed.now }
        requires sums { SumsInRange inflow outflow area }
        requires last { IsHead last }
        ensures value { result ≡ raised_of self.now fixed.now inflow outflow area last }
        ensures range { IsWithin (10 ^ 28) result }
    {
        let rise = quo(
            gain(fixed, inflow, outflow) * 1_000,
            self.surface(area, last) as i128,
        );
        fixed.h_old as i128 + rise
    }

    // What does not fit below the top, in mm³.
    pub(crate) fn excess(
        &self,
        fixed: &NodeFixed,
        inflow: i64,
        outflow: i64,
        area: i64,
        last: i64,
    ) -> i128
        requires law { IsNodeLaw self.now }
        requires fixed { IsNodeFixed fixed.now }
        requires sums { SumsInRange inflow outflow area }
        requires last { IsHead last }
        ensures value { result ≡ excess_of self.now fixed.now inflow outflow area last }
        ensures range { IsWithin (10 ^ 25) result }
    {
        let room = self.surface(area, last) as i128 * (self.top - fixed.h_old) as i128;
        gain(fixed, inflow, outflow) - quo(room, 1_000)
    }
}
