// The close of a phase.
ghost use Rattle.std.specs.Prelude.{◌≡◌, ◌+◌, ◌<◌, true, MatchResult};
ghost use Rattle.phase_machine.specs.Places.{count};
ghost use Rattle.node_board.specs.Plays.{counted, Shuts};
ghost use Rattle.node_board.specs.Seen.{IsOf, plan_of};

use crate::board::{Board, Lead};
use crate::places::item_count;
use phase_law::PhaseLaw;

/// The phase is closed: all its items are done.
#[derive(Clone, Copy, Debug, PartialEq, Eq)]
pub struct Closed;

/// The phase is still open: so many of its items are done.
#[derive(Clone, Copy, Debug, PartialEq, Eq)]
pub struct Pending {
    pub done: u64,
}

impl<P: PhaseLaw> Board<P> {
    /// Looks at the count of done items, and closes the phase where all are done. It takes no memory and waits for
    /// nobody.
    ///
    /// A phase is open. Once it is closed, the lead knows all words. After a phase of links they hold the flows, the
    /// sums and the least time of the trial of what was opened, after a phase of nodes the whole trial and its count of
    /// unsettled nodes (`IsClosed` of `specs/Plays.antt`).
    pub fn close(&self, lead: &mut Lead<P>) -> Result<Closed, Pending>
        requires from { IsOf self.now lead.old }
        requires on { (plan_of lead.old.view).is_open ≡ true }
        ensures from { IsOf self.now lead.new }
        ensures looks { lead.new.view.looks ≡ lead.old.view.looks + 1 }
        ensures view { lead.new.view ≡ counted lead.new.view.last lead.old.view (plan_of lead.new.view) }
        ensures told { let all = count (P.law self.now.law) (plan_of lead.old.view).phase in
            MatchResult result
            (λ _. (lead.new.view.last ≡ all)
            × Shuts (P.law self.now.law) (plan_of lead.old.view) (plan_of lead.new.view))
            (λ pending. (lead.new.view.last ≡ pending.done) × (pending.done < all)
            × (plan_of lead.new.view ≡ plan_of lead.old.view)) }
    {
        let done = self.look_done(lead);
        if done == item_count(&self.law, lead.phase) {
            Ok(Closed)
        } else {
            Err(Pending { done })
        }
    }
}
