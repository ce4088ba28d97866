// The next head of a node, its flood and its volume.
ghost use Rattle.std.specs.Prelude.{◌≡◌, ◌*◌, ◌^◌, false, ℤ, pos, ◌≤ℤ◌};
ghost use Rattle.std.specs.Int.RustNames.{unsigned_abs};
ghost use Rattle.fixed_num.specs.Ranges.{IsBetween, IsWithin, IsHead};
ghost use Rattle.fixed_num.specs.Relaxation.{relaxed_of};
ghost use Rattle.node_update.specs.NodeLaws.{IsNodeLaw, IsOutfallLevel, is_outfall_rule};
ghost use Rattle.node_update.specs.NodeUpdate.{IsNodeFixed, gain_of, filled_head_of, filled_next_of, has_settled};
ghost use Rattle.node_update.specs.NodeUpdate.{next_of, outfall_next_of, overflow_of, flood_of, volume_of};
ghost use Rattle.phase_law.specs.Ranges.{SumsInRange};

use crate::node_law::{NodeLaw, NodeRule, OutfallLevel};
use fixed_num::{cut, relaxed};
use phase_law::{NodeFixed, NodeNext};

impl NodeLaw {
    /// The next head of the node in a trial, and whether it has settled: from its inflow and outflow by links
    /// (cm³/s), the surface that its links add (mm²), and `last`, the head that the trial read (µm).
    ///
    /// The head of a junction or a storage is raised by what it gains, held between invert and top, and from the second
    /// trial on halved with the last one. That of an outfall is its stage, where that is above the invert, or it
    /// follows the flow of the conduit that ends there.
    /// Source: Reference Manual volume II, chapter 3, in whole numbers by this project's profile.
    pub fn next(
        &self,
        fixed: &NodeFixed,
        first: bool,
        inflow: i64,
        outflow: i64,
        area: i64,
        last: i64,
    ) -> NodeNext
        requires law { IsNodeLaw self.now }
        requires fixed { IsNodeFixed fixed.now }
        requires sums { SumsInRange inflow outflow area }
        requires last { IsHead last }
        ensures value { result ≡ next_of self.now fixed.now first inflow outflow area last }
        ensures range { IsHead result.head }
        // A junction or a storage whose last head was not above its top stays there.
        ensures place { is_outfall_rule self.now.rule ≡ false → last ≤ℤ self.now.top → result.head ≤ℤ self.now.top }
    {
        match &self.rule {
            NodeRule::Junction { .. } => self.filled_next(
                fixed, first, inflow, outflow, area, last,
            ),
            NodeRule::Storage(_) => self.filled_next(fixed, first, inflow, outflow, area, last),
            NodeRule::Outfall(level) => self.outfall_next(level, fixed, inflow, outflow, area),
        }
    }

    /// The water that the node loses over its top in a step, in mm³, from the numbers of the step's last trial, whose
    /// head was `last`.
    ///
    /// It is what a junction or a storage gains beyond its top where its raised head is above that, and never below 0.
    /// Source: this project's profile.
    pub fn flood(&self, fixed: &NodeFixed, inflow: i64, outflow: i64, area: i64, last: i64) -> i128
        requires law { IsNodeLaw self.now }
        requires fixed { IsNodeFixed fixed.now }
        requires sums { SumsInRange inflow outflow area }
        requires last { IsHead last }
        ensures value { result ≡ flood_of self.now fixed.now inflow outflow area last }
        ensures range { IsBetween (pos 0) result (pos (10 ^ 25)) }
        // From a head that is not above the top no more is lost than comes in.
        ensures most { fixed.now.h_old ≤ℤ self.now.top
            → result ≤ℤ pos (unsigned_abs (gain_of fixed.now inflow outflow)) }
    {
        match &self.rule {
            NodeRule::Junction { .. } => self.overflow(fixed, inflow, outflow, area, last),
            NodeRule::Storage(_) => self.overflow(fixed, inflow, outflow, area, last),
            NodeRule::Outfall(_) => 0,
        }
    }

    /// The volume of the node at a head in µm, in mm³: a junction's least surface area by the depth, and where it ponds
    /// its ponded area above the full height; a storage's by its table; an outfall has none.
    ///
    /// Source: this project's profile.
    pub fn volume(&self, head: i64) -> i128
        requires law { IsNodeLaw self.now }
        requires head { IsHead head }
        ensures value { result ≡ volume_of self.now head }
        ensures range { IsWithin (10 ^ 21) result }
    {
        match &self.rule {
            NodeRule::Junction { pond } => self.junction_volume(*pond, head),
            NodeRule::Storage(table) => self.storage_volume(table.get(), head),
            NodeRule::Outfall(_) => 0,
        }
    }

    // What a junction or a storage does in a trial.
    fn filled_next(
        &self,
        fixed: &NodeFixed,
        first: bool,
        inflow: i64,
        outflow: i64,
        area: i64,
        last: i64,
    ) -> NodeNext
        requires law { IsNodeLaw self.now }
        requires fixed { IsNodeFixed fixed.now }
        requires sums { SumsInRange inflow outflow area }
        requires last { IsHead last }
        ensures value { result ≡ filled_next_of self.now fixed.now first inflow outflow area last }
        ensures range { IsHead result.head }
        ensures place { last ≤ℤ self.now.top → result.head ≤ℤ self.now.top }
    {
        let head = self.filled_head(fixed, first, inflow, outflow, area, last);
        NodeNext {
            head,
            settled: has_settled(self.tolerance, last, head),
        }
    }

    // The next head of a junction or a storage.
    fn filled_head(
        &self,
        fixed: &NodeFixed,
        first: bool,
        inflow: i64,
        outflow: i64,
        area: i64,
        last: i64,
    ) -> i64
        requires law { IsNodeLaw self.now }
        requires fixed { IsNodeFixed fixed.now }
        requires sums { SumsInRange inflow outflow area }
        requires last { IsHead last }
        ensures value { result ≡ filled_head_of self.now fixed.now first inflow outflow area last }
        ensures range { IsHead result }
        ensures place { last ≤ℤ self.now.top → result ≤ℤ self.now.top }
    {
        let raised = self.raised(fixed, inflow, outflow, area, last);
        let held = cut(raised, self.invert as i128, self.top as i128) as i64;
        relaxed_head(first, last, held)
    }

    // What an outfall of this level does in a trial.
    fn outfall_next(
        &self,
        level: &OutfallLevel,
        fixed: &NodeFixed,
        inflow: i64,
        outflow: i64,
        area: i64,
    ) -> NodeNext
        requires law { IsNodeLaw self.now }
        requires level { IsOutfallLevel level.now }
        requires fixed { IsNodeFixed fixed.now }
        requires sums { SumsInRange inflow outflow area }
        ensures value { result ≡ outfall_next_of level.now self.now fixed.now inflow outflow }
        ensures range { IsHead result.head }
    {
        NodeNext {
            head: level.head(self.invert, fixed.stage, inflow, outflow),
            settled: true,
        }
    }

    // The flood of a junction or a storage.
    fn overflow(&self, fixed: &NodeFixed, inflow: i64, outflow: i64, area: i64, last: i64) -> i128
        requires law { IsNodeLaw self.now }
        requires fixed { IsNodeFixed fixed.now }
        requires sums { SumsInRange inflow outflow area }
        requires last { IsHead last }
        ensures value { result ≡ overflow_of self.now fixed.now inflow outflow area last }
        ensures range { IsBetween (pos 0) result (pos (10 ^ 25)) }
    {
        if self.raised(fixed, inflow, outflow, area, last) > self.top as i128 {
            self.excess(fixed, inflow, outflow, area, last).max(0)
        } else {
            0
        }
    }
}

// The head of a trial: the new head in the first one, else the mean of it and the last.
fn relaxed_head(first: bool, last: i64, new: i64) -> i64
    requires last { IsHead last }
    requires new { IsHead new }
    ensures value { result ≡ relaxed_of first last new }
    ensures range { IsHead result }
{
    relaxed(first, last, new as i128) as i64
}

// Whether a head moved no further than the tolerance.
fn has_settled(tolerance: i64, last: i64, new: i64) -> bool
    requires last { IsHead last }
    requires new { IsHead new }
    ensures { result ≡ has_settled tolerance last new }
{
    (new - last).abs() <= tolerance
}
