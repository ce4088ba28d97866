// The acts on a node's item after its loads.
ghost use Rattle.std.specs.Prelude.{◌≡◌, true, false};
ghost use Rattle.phase_machine.specs.Items.{next_at};
ghost use Rattle.phase_machine.specs.declared.acts.Act.TheVariants.{Done};
ghost use Rattle.phase_machine.specs.Steps.{further, CanWork};
ghost use Rattle.node_board.specs.Acts.{ReadyNode};
ghost use Rattle.node_board.specs.Plays.{at_work};
ghost use Rattle.node_board.specs.Seen.{IsOf};
ghost use Rattle.node_board.specs.Shows.{work_of};

use crate::board::{Board, Seat};
use crate::places::{UNSETTLED, node_word, signed_word, written_buffer};
use crate::plays::Working;
use phase_law::PhaseLaw;

impl<P: PhaseLaw> Board<P> {
    /// Stores the next head of the seat's node (µm). It takes no memory and waits for nobody.
    ///
    /// The head is the law's next head of what the seat loaded.
    pub fn put_head(&self, seat: &mut Seat<P>, head: i64)
        requires from { IsOf self.now seat.old }
        requires ready { ReadyNode (P.law self.now.law) 11 (work_of seat.old.view) }
        requires next { head ≡ (next_at (P.law self.now.law) (work_of seat.old.view)).head }
        ensures from { IsOf self.now seat.new }
        ensures view { seat.new.view ≡ at_work seat.old.view (further (work_of seat.old.view)) }
        ensures ready { ReadyNode (P.law self.now.law) 12 (work_of seat.new.view) }
        ensures next { let law = P.law self.now.law in
            next_at law (work_of seat.new.view) ≡ next_at law (work_of seat.old.view) }
        ensures made { (next_at (P.law self.now.law) (work_of seat.new.view)).settled ≡ true
            → CanWork (P.law self.now.law) (work_of seat.new.view) Done }
    {
        let word = node_word(&self.law, seat.item, 5 + written_buffer(seat.phase));
        self.words
            .shared
            .store::<Working>(&mut seat.place, word, signed_word(head));
    }

    /// Counts the seat's node as unsettled. It takes no memory and waits for nobody.
    ///
    /// The law says that the node isn't settled, and its head is stored.
    pub fn mark_unsettled(&self, seat: &mut Seat<P>)
        requires from { IsOf self.now seat.old }
        requires ready { ReadyNode (P.law self.now.law) 12 (work_of seat.old.view) }
        requires unsettled { (next_at (P.law self.now.law) (work_of seat.old.view)).settled ≡ false }
        ensures from { IsOf self.now seat.new }
        ensures view { seat.new.view ≡ at_work seat.old.view (further (work_of seat.old.view)) }
        ensures made { CanWork (P.law self.now.law) (work_of seat.new.view) Done }
    {
        self.words
            .shared
            .fetch_add::<Working>(&mut seat.place, UNSETTLED, 1);
    }
}
