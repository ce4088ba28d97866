// The claims of items.
ghost use Rattle.std.specs.Prelude.{◌≡◌, ◌+◌, ◌≤◌, IsTrue, ◌↔◌};
ghost use Rattle.phase_machine.specs.Places.{count, is_odd};
ghost use Rattle.node_board.specs.Claims.{Names, NamesItem, Holds, ClaimSteps};
ghost use Rattle.node_board.specs.Coding.{phase_in, index_in};
ghost use Rattle.node_board.specs.Plays.{looked, took};
ghost use Rattle.node_board.specs.Seen.{IsOf};
ghost use Rattle.node_board.specs.Shows.{work_of};

use crate::board::{Board, Seat};
use crate::places::{index_of, item_count, phase_of};
use crate::plays::{Looking, Taking};
use phase_law::PhaseLaw;

/// What a claim gave: a link, a node, or no item, with the claim word that it found.
#[derive(Clone, Copy, Debug, PartialEq, Eq)]
pub enum Claim {
    Link(u32),
    Node(u32),
    NoItem(u64),
}

/// The item that a claim word names.
fn named<P: PhaseLaw>(law: &P, word: u64) -> Claim
    ensures { Names (P.law law.now) word result }
{
    let phase = phase_of(word);
    let index = index_of(word);
    if index as u64 >= item_count(law, phase) {
        Claim::NoItem(word)
    } else if phase % 2 == 1 {
        Claim::Link(index)
    } else {
        Claim::Node(index)
    }
}

/// Whether a claim word names an item.
fn names_item<P: PhaseLaw>(law: &P, word: u64) -> bool
    ensures { IsTrue result ↔ NamesItem (P.law law.now) word }
{
    (index_of(word) as u64) < item_count(law, phase_of(word))
}

impl<P: PhaseLaw> Board<P> {
    /// A look at the claim word.
    fn look(&self, seat: &mut Seat<P>) -> u64
        requires from { IsOf self.now seat.old }
        requires free { (work_of seat.old.view).stage ≡ 0 }
        ensures from { IsOf self.now seat.new }
        ensures view { seat.new.view ≡ looked (P.law self.now.law) result seat.old.view }
    {
        self.words.shared.load::<Looking>(&mut seat.place, 0)
    }

    /// A claim after a look that found items left.
    fn take_next(&self, seat: &mut Seat<P>) -> u64
        requires from { IsOf self.now seat.old }
        requires free { (work_of seat.old.view).stage ≡ 0 }
        requires look { 1 ≤ (work_of seat.old.view).look }
        ensures from { IsOf self.now seat.new }
        ensures view { seat.new.view ≡ took (P.law self.now.law) result seat.old.view }
    {
        let found = self.words.shared.fetch_add::<Taking>(&mut seat.place, 0, 1);
        if names_item(&self.law, found) {
            seat.phase = phase_of(found);
            seat.item = index_of(found);
        }
        found
    }

    /// Claims the next item of the phase, if one is left. It takes no memory and waits for nobody.
    ///
    /// The seat holds no item. The answer is what the word that the seat found last names: where a first look finds
    /// an item left, that is the old word of the fetch_add.
    pub fn claim(&self, seat: &mut Seat<P>) -> Claim
        requires from { IsOf self.now seat.old }
        requires free { (work_of seat.old.view).stage ≡ 0 }
        ensures from { IsOf self.now seat.new }
        ensures looks { seat.new.view.looks ≡ seat.old.view.looks + 1 }
        ensures item { Names (P.law self.now.law) seat.new.view.last result }
        ensures holds { Holds (P.law self.now.law) result (work_of seat.new.view) }
        ensures steps { ClaimSteps (P.law self.now.law) seat.old.view seat.new.view }
    {
        let seen = self.look(seat);
        if names_item(&self.law, seen) {
            let found = self.take_next(seat);
            named(&self.law, found)
        } else {
            Claim::NoItem(seen)
        }
    }
}
