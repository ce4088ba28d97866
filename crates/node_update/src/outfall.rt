// The level at an outfall.
ghost use Rattle.std.specs.Prelude.{◌≡◌, ◌*◌, ◌^◌, pos};
ghost use Rattle.fixed_num.specs.Ranges.{IsBetween, IsDepth, IsElevation, IsHead};
ghost use Rattle.node_update.specs.NodeLaws.{IsOutfallConduit, IsOutfallLevel};
ghost use Rattle.node_update.specs.NodeUpdate.{barrel_flow_of, free_head_of, level_head_of, normal_depth_of};
ghost use Rattle.node_update.specs.NodeUpdate.{uniform_head_of};
ghost use Rattle.xsect_tables.specs.NormalFlow.{critical_of};

use crate::node_law::{OutfallConduit, OutfallLevel};
use fixed_num::quo;

impl OutfallConduit {
    // What one barrel brings to the outfall, in cm³/s.
    fn barrel_flow(&self, inflow: i64, outflow: i64) -> i64
        requires inflow { IsBetween (pos 0) inflow (pos (2 * 10 ^ 16)) }
        requires outflow { IsBetween (pos 0) outflow (pos (2 * 10 ^ 16)) }
        ensures { result ≡ barrel_flow_of self.now inflow outflow }
    {
        let barrels = self.table.barrels();
        quo((inflow - outflow).max(0) as i128, barrels as i128) as i64
    }

    // The normal depth of a flow of one barrel, in µm.
    fn normal_depth(&self, q: i64) -> i64
        requires { IsOutfallConduit self.now }
        ensures value { result ≡ normal_depth_of self.now q }
        ensures range { IsDepth result }
    {
        self.table.normal(q, self.n6, self.drop, self.length)
    }

    // The critical depth of a flow of one barrel, in µm.
    fn critical_depth(&self, q: i64) -> i64
        requires { IsOutfallConduit self.now }
        ensures value { result ≡ critical_of self.now.table q }
        ensures range { IsDepth result }
    {
        self.table.critical(q)
    }

    // The head at the end of the conduit in free fall, in µm.
    fn free_head(&self, q: i64) -> i64
        requires { IsOutfallConduit self.now }
        ensures value { result ≡ free_head_of self.now q }
        ensures range { IsHead result }
    {
        self.height + self.critical_depth(q).min(self.normal_depth(q))
    }

    // The head there in uniform flow, in µm.
    fn uniform_head(&self, q: i64) -> i64
        requires { IsOutfallConduit self.now }
        ensures value { result ≡ uniform_head_of self.now q }
        ensures range { IsHead result }
    {
        self.height + self.normal_depth(q)
    }
}

impl OutfallLevel {
    // The head at an outfall of this invert and this stage, both in µm, by what its links bring and take, in cm³/s.
    pub(crate) fn head(&self, invert: i64, stage: i64, inflow: i64, outflow: i64) -> i64
        requires level { IsOutfallLevel self.now }
        requires invert { IsElevation invert }
        requires stage { IsHead stage }
        requires inflow { IsBetween (pos 0) inflow (pos (2 * 10 ^ 16)) }
        requires outflow { IsBetween (pos 0) outflow (pos (2 * 10 ^ 16)) }
        ensures value { result ≡ level_head_of self.now invert stage inflow outflow }
        ensures range { IsHead result }
    {
        match self {
            OutfallLevel::AtStage => invert.max(stage),
            OutfallLevel::AtInvert => invert,
            OutfallLevel::FreeFall(conduit) => conduit_free(conduit.get(), inflow, outflow),
            OutfallLevel::UniformFlow(conduit) => conduit_uniform(conduit.get(), inflow, outflow),
        }
    }
}

// The head at the end of a conduit in free fall, by what the links bring and take.
fn conduit_free(conduit: &OutfallConduit, inflow: i64, outflow: i64) -> i64
    requires conduit { IsOutfallConduit conduit.now }
    requires inflow { IsBetween (pos 0) inflow (pos (2 * 10 ^ 16)) }
    requires outflow { IsBetween (pos 0) outflow (pos (2 * 10 ^ 16)) }
    ensures value { result ≡ free_head_of conduit.now (barrel_flow_of conduit.now inflow outflow) }
    ensures range { IsHead result }
{
    conduit.free_head(conduit.barrel_flow(inflow, outflow))
}

// The same in uniform flow.
fn conduit_uniform(conduit: &OutfallConduit, inflow: i64, outflow: i64) -> i64
    requires conduit { IsOutfallConduit conduit.now }
    requires inflow { IsBetween (pos 0) inflow (pos (2 * 10 ^ 16)) }
    requires outflow { IsBetween (pos 0) outflow (pos (2 * 10 ^ 16)) }
    ensures value { result ≡ uniform_head_of conduit.now (barrel_flow_of conduit.now inflow outflow) }
    ensures range { IsHead result }
{
    conduit.uniform_head(conduit.barrel_flow(inflow, outflow))
}
