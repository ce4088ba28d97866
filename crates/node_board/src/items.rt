// The acts on an item that links and nodes share.
ghost use Rattle.std.specs.Prelude.{◌≡◌, ◌+◌, ◌<◌};
ghost use Rattle.phase_machine.specs.declared.acts.Act.TheVariants.{Done};
ghost use Rattle.phase_machine.specs.Steps.{CanWork};
ghost use Rattle.node_board.specs.Plays.{at_work};
ghost use Rattle.node_board.specs.Seen.{IsOf};
ghost use Rattle.node_board.specs.Shows.{work_of};
ghost use Rattle.node_board.specs.Steps.{ended};

use crate::board::{Board, Seat};
use crate::places::DONE;
use crate::plays::Ending;
use phase_law::PhaseLaw;

impl<P: PhaseLaw> Board<P> {
    /// Ends the item of a seat and counts it as done. It takes no memory and waits for nobody.
    ///
    /// All acts of the item were made: of a link all up to its flow, of a node its head, and its mark where the law
    /// says that it isn't settled.
    pub fn done(&self, seat: &mut Seat<P>)
        requires from { IsOf self.now seat.old }
        requires made { CanWork (P.law self.now.law) (work_of seat.old.view) Done }
        ensures from { IsOf self.now seat.new }
        ensures view { seat.new.view ≡ at_work seat.old.view (ended (work_of seat.old.view)) }
    {
        self.words
            .shared
            .fetch_add::<Ending>(&mut seat.place, DONE, 1);
    }
}
