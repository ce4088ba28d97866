// The setting of what the next trial reads.
ghost use Rattle.std.specs.Prelude.{◌≡◌, ◌+◌, ◌<◌, false, slice_set, length};
ghost use Rattle.fixed_num.specs.Ranges.{IsFlow};
ghost use Rattle.phase_law.specs.Ranges.{HeadInRange, LinkFixedInRange, NodeFixedInRange};
ghost use Rattle.phase_machine.specs.Places.{is_odd, word_count, written, link_place, node_place, LinkWord, NodeWord};
ghost use Rattle.node_board.specs.Known.{state_in, at_known, with_link, with_node};
ghost use Rattle.node_board.specs.Seen.{IsOf, plan_of};
ghost use Rattle.node_board.specs.Steps.{Rests};

use crate::board::{Board, Lead};
use crate::places::{link_word, node_word, written_buffer};
use phase_law::{LinkFixed, NodeFixed, PhaseLaw};

impl<P: PhaseLaw> Board<P> {
    /// Sets word k of what stays the same for a link.
    fn set_link_word(&self, lead: &mut Lead<P>, link: u32, k: u32, value: i64)
        requires from { IsOf self.now lead.old }
        requires rests { Rests (plan_of lead.old.view) }
        requires even { is_odd (plan_of lead.old.view).phase ≡ false }
        requires link { link < (P.law self.now.law).links }
        requires few { k < 4 }
        requires range { LinkWord k value }
        ensures from { IsOf self.now lead.new }
        ensures view { lead.new.view
            ≡ at_known lead.old.view (slice_set (plan_of lead.old.view).known (link_place link k) value) }
        ensures size { length (plan_of lead.old.view).known ≡ word_count (P.law self.now.law) }
    {
        let word = link_word(link, k);
        self.set_signed(lead, word, value);
    }

    /// Sets the flow of a link.
    fn set_flow(&self, lead: &mut Lead<P>, link: u32, flow: i64)
        requires from { IsOf self.now lead.old }
        requires rests { Rests (plan_of lead.old.view) }
        requires even { is_odd (plan_of lead.old.view).phase ≡ false }
        requires link { link < (P.law self.now.law).links }
        requires range { IsFlow flow }
        ensures from { IsOf self.now lead.new }
        ensures view { let plan = plan_of lead.old.view in
            let place = link_place link (4 + written plan.phase) in
            lead.new.view ≡ at_known lead.old.view (slice_set plan.known place flow) }
    {
        let word = link_word(link, 4 + written_buffer(lead.phase));
        self.set_signed(lead, word, flow);
    }

    /// Sets what stays the same for a link over the trials of a step, and its flow (cm³/s), which the next trial
    /// reads. It takes no memory and waits for nobody.
    ///
    /// No phase is open, the last one was of nodes or there was none, and the board wasn't stopped. All numbers lie in
    /// the law's ranges.
    pub fn set_link(&self, lead: &mut Lead<P>, link: u32, fixed: &LinkFixed, flow: i64)
        requires from { IsOf self.now lead.old }
        requires rests { Rests (plan_of lead.old.view) }
        requires even { is_odd (plan_of lead.old.view).phase ≡ false }
        requires link { link < (P.law self.now.law).links }
        requires fixed { LinkFixedInRange fixed.now }
        requires flow { IsFlow flow }
        ensures from { IsOf self.now lead.new }
        ensures view { let plan = plan_of lead.old.view in
            lead.new.view ≡ at_known lead.old.view (with_link (written plan.phase) link fixed.now flow plan.known) }
        ensures state { let law = P.law self.now.law in let old = state_in law (plan_of lead.old.view) in
            state_in law (plan_of lead.new.view)
            ≡ record old { links = slice_set old.links link fixed.now; flows = slice_set old.flows link flow } }
    {
        self.set_link_word(lead, link, 0, fixed.q_old);
        self.set_link_word(lead, link, 1, fixed.a_old);
        self.set_link_word(lead, link, 2, fixed.setting);
        self.set_link_word(lead, link, 3, fixed.dt);
        self.set_flow(lead, link, flow);
    }

    /// Sets word k of what stays the same for a node.
    fn set_node_word(&self, lead: &mut Lead<P>, node: u32, k: u32, value: i64)
        requires from { IsOf self.now lead.old }
        requires rests { Rests (plan_of lead.old.view) }
        requires even { is_odd (plan_of lead.old.view).phase ≡ false }
        requires node { node < (P.law self.now.law).nodes }
        requires few { k < 5 }
        requires range { NodeWord (P.law self.now.law) k value }
        ensures from { IsOf self.now lead.new }
        ensures view { let place = node_place (P.law self.now.law) node k in
            lead.new.view ≡ at_known lead.old.view (slice_set (plan_of lead.old.view).known place value) }
        ensures size { length (plan_of lead.old.view).known ≡ word_count (P.law self.now.law) }
    {
        let word = node_word(&self.law, node, k);
        self.set_signed(lead, word, value);
    }

    /// Sets the head of a node.
    fn set_head(&self, lead: &mut Lead<P>, node: u32, head: i64)
        requires from { IsOf self.now lead.old }
        requires rests { Rests (plan_of lead.old.view) }
        requires even { is_odd (plan_of lead.old.view).phase ≡ false }
        requires node { node < (P.law self.now.law).nodes }
        requires range { HeadInRange (P.law self.now.law) head }
        ensures from { IsOf self.now lead.new }
        ensures view { let plan = plan_of lead.old.view in
            let place = node_place (P.law self.now.law) node (5 + written plan.phase) in
            lead.new.view ≡ at_known lead.old.view (slice_set plan.known place head) }
    {
        let word = node_word(&self.law, node, 5 + written_buffer(lead.phase));
        self.set_signed(lead, word, head);
    }

    /// Sets what stays the same for a node over the trials of a step, and its head (µm), which the next trial reads.
    /// It takes no memory and waits for nobody.
    ///
    /// No phase is open, the last one was of nodes or there was none, and the board wasn't stopped. All numbers lie in
    /// the law's ranges.
    pub fn set_node(&self, lead: &mut Lead<P>, node: u32, fixed: &NodeFixed, head: i64)
        requires from { IsOf self.now lead.old }
        requires rests { Rests (plan_of lead.old.view) }
        requires even { is_odd (plan_of lead.old.view).phase ≡ false }
        requires node { node < (P.law self.now.law).nodes }
        requires fixed { NodeFixedInRange (P.law self.now.law) fixed.now }
        requires head { HeadInRange (P.law self.now.law) head }
        ensures from { IsOf self.now lead.new }
        ensures view { let law = P.law self.now.law in let plan = plan_of lead.old.view in
            let words = with_node law (written plan.phase) node fixed.now head plan.known in
            lead.new.view ≡ at_known lead.old.view words }
        ensures state { let law = P.law self.now.law in let old = state_in law (plan_of lead.old.view) in
            state_in law (plan_of lead.new.view)
            ≡ record old { nodes = slice_set old.nodes node fixed.now; heads = slice_set old.heads node head } }
    {
        self.set_node_word(lead, node, 0, fixed.h_old);
        self.set_node_word(lead, node, 1, fixed.net_old);
        self.set_node_word(lead, node, 2, fixed.lateral);
        self.set_node_word(lead, node, 3, fixed.stage);
        self.set_node_word(lead, node, 4, fixed.dt);
        self.set_head(lead, node, head);
    }
}
