// The opening of a board, of its phases, and its stop.
ghost use Rattle.std.specs.Prelude.{◌≡◌, ◌≤◌, true, false, IfOk};
ghost use Rattle.phase_machine.specs.Places.{is_odd};
ghost use Rattle.trial_model.specs.Trial.{trial, unsettled_in, with_flows};
ghost use Rattle.phase_machine.specs.Kept.{with_links};
ghost use Rattle.node_board.specs.Known.{state_in, links_opened, nodes_opened};
ghost use Rattle.node_board.specs.Opening.{first_view};
ghost use Rattle.node_board.specs.Plays.{at_plan, trial_of, unsettled_of};
ghost use Rattle.node_board.specs.Seen.{IsOf, plan_of};
ghost use Rattle.node_board.specs.Steps.{Rests};

use crate::board::{Board, Lead, Words};
use crate::places::CLAIM;
use crate::plays::Stopping;
use crate::words::first_words;
use net_types::OutOfMemory;
use phase_law::PhaseLaw;
use std::alloc::Global;

impl<P: PhaseLaw> Board<P> {
    /// A board for a law, and its lead. It takes memory, and waits for nobody. After a refusal there is nothing.
    ///
    /// No phase was opened, all heads, flows, sums and fixed numbers are 0, and the least time is 3,600,000 ms.
    pub fn open(alloc: Global, law: P) -> Result<(Board<P>, Lead<P>), OutOfMemory>
        ensures law { IfOk result (λ both. both.0.law ≡ law) }
        ensures from { IfOk result (λ both. IsOf both.0 both.1) }
        ensures view { IfOk result (λ both. both.1.view ≡ first_view (P.law law) law) }
    {
        let numbers = first_words(alloc, &law)?;
        let (words, place) = Words::<P>::of_words(alloc, numbers.as_slice(), &law)?;
        Ok((Board { words, law }, Lead { place, phase: 0 }))
    }

    /// The law of the board.
    pub fn law(&self) -> &P
        ensures { result.now ≡ self.now.law }
    {
        &self.law
    }

    /// Opens a phase of links, for a trial of the state that the lead knows; `first` tells whether it is the first
    /// trial of its step. It takes no memory and waits for nobody.
    ///
    /// No phase is open, the last one was of nodes or there was none, no word was reset since, and the board wasn't
    /// stopped. Before the phase is opened, the counts, the sums and the least time are reset.
    pub fn open_links(&self, lead: &mut Lead<P>, first: bool)
        requires from { IsOf self.now lead.old }
        requires rests { Rests (plan_of lead.old.view) }
        requires fresh { (plan_of lead.old.view).resets ≡ 0 }
        requires even { is_odd (plan_of lead.old.view).phase ≡ false }
        requires few { (plan_of lead.old.view).phase ≤ 2_000_000_002 }
        ensures from { IsOf self.now lead.new }
        ensures view { lead.new.view
            ≡ at_plan lead.old.view (links_opened (P.law self.now.law) first (plan_of lead.old.view)) }
        // What the phase will make: the trial of the state that stood there.
        ensures flows { let law = P.law self.now.law in let plan = plan_of lead.new.view in
            with_links law plan.opened plan.phase ≡ with_flows law (state_in law (plan_of lead.old.view)) first }
        ensures trial { let law = P.law self.now.law in let plan = plan_of lead.new.view in
            trial_of law plan.opened plan.phase ≡ trial law (state_in law (plan_of lead.old.view)) first }
        ensures unsettled { let law = P.law self.now.law in let plan = plan_of lead.new.view in
            unsettled_of law plan.opened plan.phase ≡ unsettled_in law (state_in law (plan_of lead.old.view)) first }
    {
        self.set_first(lead, first);
        self.reset_all(lead);
        self.begin_links(lead);
    }

    /// Opens the phase of nodes of a trial whose phase of links was closed. It takes no memory and waits for nobody.
    ///
    /// No phase is open, the last one was of links, no word was reset since, and the board wasn't stopped.
    pub fn open_nodes(&self, lead: &mut Lead<P>)
        requires from { IsOf self.now lead.old }
        requires rests { Rests (plan_of lead.old.view) }
        requires fresh { (plan_of lead.old.view).resets ≡ 0 }
        requires odd { is_odd (plan_of lead.old.view).phase ≡ true }
        requires few { (plan_of lead.old.view).phase ≤ 2_000_000_003 }
        ensures from { IsOf self.now lead.new }
        ensures view { lead.new.view
            ≡ at_plan lead.old.view (nodes_opened (P.law self.now.law) (plan_of lead.old.view)) }
        // The trial is still that of what was opened.
        ensures trial { let law = P.law self.now.law in
            let old = plan_of lead.old.view in let plan = plan_of lead.new.view in
            trial_of law plan.opened plan.phase ≡ trial_of law old.opened old.phase }
        ensures unsettled { let law = P.law self.now.law in
            let old = plan_of lead.old.view in let plan = plan_of lead.new.view in
            unsettled_of law plan.opened plan.phase ≡ unsettled_of law old.opened old.phase }
    {
        self.reset_all(lead);
        self.begin_nodes(lead);
    }

    /// Stops the board: no further phase is opened and no item is claimed. It takes no memory and waits for nobody.
    ///
    /// No phase is open, and the board wasn't stopped. A worker that looks then finds a word that is [`stopped`], or
    /// one of phase 0.
    pub fn stop(&self, lead: &mut Lead<P>)
        requires from { IsOf self.now lead.old }
        requires rests { Rests (plan_of lead.old.view) }
        ensures from { IsOf self.now lead.new }
        ensures view { lead.new.view ≡ at_plan lead.old.view (record (plan_of lead.old.view) { stopped = true }) }
    {
        self.words
            .shared
            .store::<Stopping>(&mut lead.place, CLAIM, u64::MAX);
    }
}
