// The single steps of the lead.
ghost use Rattle.std.specs.Prelude.{◌≡◌, ◌+◌, ◌-◌, ◌<◌, ◌≤◌, true, false};
ghost use Rattle.std.specs.Prelude.{if◌then◌else◌, slice_set, length};
ghost use Rattle.phase_machine.specs.Places.{is_odd, word_count};
ghost use Rattle.phase_machine.specs.Steps.{reset_count as count_of_resets};
ghost use Rattle.node_board.specs.Known.{at_known, with_first, all_reset, begun_links, begun_nodes};
ghost use Rattle.node_board.specs.Known.{CanSetWord, CanBegin, IsTold, Tells, LooksDone};
ghost use Rattle.node_board.specs.Plays.{at_plan, reset_once};
ghost use Rattle.node_board.specs.Seen.{IsOf, plan_of};
ghost use Rattle.node_board.specs.Steps.{Rests};

use crate::board::{Board, Lead};
use crate::places::{CLAIM, DONE, FIRST, signed_word};
use crate::plays::{BeginningLinks, BeginningNodes, LookingDone, Reading, Resetting, Setting};
use crate::resets::{next_claim, reset_code, reset_count, reset_word};
use phase_law::PhaseLaw;

/// The word that tells whether a trial is the first of its step.
fn first_code(first: bool) -> u64
    ensures { result ≡ if first then 1 else 0 }
{
    if first { 1 } else { 0 }
}

impl<P: PhaseLaw> Board<P> {
    /// A look at the count of done items.
    pub(crate) fn look_done(&self, lead: &mut Lead<P>) -> u64
        requires from { IsOf self.now lead.old }
        requires on { (plan_of lead.old.view).is_open ≡ true }
        ensures from { IsOf self.now lead.new }
        ensures looks { LooksDone (P.law self.now.law) lead.old.view lead.new.view result }
    {
        self.words.shared.load::<LookingDone>(&mut lead.place, DONE)
    }

    /// The next reset.
    fn reset(&self, lead: &mut Lead<P>, reset: u64)
        requires from { IsOf self.now lead.old }
        requires rests { Rests (plan_of lead.old.view) }
        requires next { (plan_of lead.old.view).resets ≡ reset }
        requires left { reset < count_of_resets (P.law self.now.law) (plan_of lead.old.view).phase }
        ensures from { IsOf self.now lead.new }
        ensures view { lead.new.view
            ≡ at_plan lead.old.view (reset_once (P.law self.now.law) (plan_of lead.old.view)) }
    {
        let word = reset_word(&self.law, reset);
        let code = reset_code(&self.law, reset);
        self.words
            .shared
            .store::<Resetting>(&mut lead.place, word, code);
    }

    /// All resets after a phase.
    pub(crate) fn reset_all(&self, lead: &mut Lead<P>)
        requires from { IsOf self.now lead.old }
        requires rests { Rests (plan_of lead.old.view) }
        requires fresh { (plan_of lead.old.view).resets ≡ 0 }
        ensures from { IsOf self.now lead.new }
        ensures view { lead.new.view
            ≡ at_plan lead.old.view (all_reset (P.law self.now.law) (plan_of lead.old.view)) }
    {
        for reset in 0..reset_count(&self.law, lead.phase) {
            self.reset(lead, reset);
        }
    }

    /// The storing of a value, which may be below 0, that the next trial reads.
    pub(crate) fn set_signed(&self, lead: &mut Lead<P>, word: usize, value: i64)
        requires from { IsOf self.now lead.old }
        requires can { CanSetWord (P.law self.now.law) word value (plan_of lead.old.view) }
        ensures from { IsOf self.now lead.new }
        ensures view { lead.new.view
            ≡ at_known lead.old.view (slice_set (plan_of lead.old.view).known (word - 1) value) }
        ensures size { length (plan_of lead.old.view).known ≡ word_count (P.law self.now.law) }
    {
        let code = signed_word(value);
        self.words
            .shared
            .store::<Setting>(&mut lead.place, word, code);
    }

    /// The storing of whether the next trial is the first of its step.
    pub(crate) fn set_first(&self, lead: &mut Lead<P>, first: bool)
        requires from { IsOf self.now lead.old }
        requires rests { Rests (plan_of lead.old.view) }
        requires even { is_odd (plan_of lead.old.view).phase ≡ false }
        ensures from { IsOf self.now lead.new }
        ensures view { lead.new.view ≡ at_known lead.old.view (with_first first (plan_of lead.old.view).known) }
        ensures size { length (plan_of lead.old.view).known ≡ word_count (P.law self.now.law) }
    {
        let code = first_code(first);
        self.words
            .shared
            .store::<Setting>(&mut lead.place, FIRST, code);
    }

    /// The opening of a phase of links.
    pub(crate) fn begin_links(&self, lead: &mut Lead<P>)
        requires from { IsOf self.now lead.old }
        requires can { CanBegin (P.law self.now.law) false (plan_of lead.old.view) }
        ensures from { IsOf self.now lead.new }
        ensures view { lead.new.view ≡ at_plan lead.old.view (begun_links (plan_of lead.old.view)) }
    {
        let code = next_claim(lead.phase);
        self.words
            .shared
            .store::<BeginningLinks>(&mut lead.place, CLAIM, code);
        lead.phase += 1;
    }

    /// The opening of a phase of nodes.
    pub(crate) fn begin_nodes(&self, lead: &mut Lead<P>)
        requires from { IsOf self.now lead.old }
        requires can { CanBegin (P.law self.now.law) true (plan_of lead.old.view) }
        ensures from { IsOf self.now lead.new }
        ensures view { lead.new.view ≡ at_plan lead.old.view (begun_nodes (plan_of lead.old.view)) }
    {
        let code = next_claim(lead.phase);
        self.words
            .shared
            .store::<BeginningNodes>(&mut lead.place, CLAIM, code);
        lead.phase += 1;
    }

    /// A load of a word that the lead knows.
    pub(crate) fn read(&self, lead: &mut Lead<P>, word: usize) -> u64
        requires from { IsOf self.now lead.old }
        requires off { (plan_of lead.old.view).is_open ≡ false }
        requires behind { 1 ≤ word }
        requires told { IsTold (P.law self.now.law) (word - 1) }
        ensures same { lead.new ≡ lead.old }
        ensures tells { Tells (P.law self.now.law) (plan_of lead.old.view) (word - 1) result }
    {
        self.words.shared.load::<Reading>(&mut lead.place, word)
    }
}
