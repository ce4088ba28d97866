// The board, and its seats.
ghost use Rattle.std.specs.Prelude.{◌≡◌, ◌<◌};
ghost use Rattle.node_board.specs.Plays.{after_split, new_seat};
ghost use Rattle.node_board.specs.Seen.{IsOf, seats_split};

use crate::rule::{BoardRule, Splitting};
use crate::views::View;
use atomic_table::Table;
use phase_law::PhaseLaw;
use std::alloc::Global;
use std::marker::Model;

/// The words of a board.
pub(crate) type Words<P> = Table<(), View<P>, P, BoardRule, Global>;

/// The board on which seats share the trials of a law. Contracts see its table and its law.
#[derive(Drop)]
pub struct Board<P: PhaseLaw> {
    pub(crate) words: Words<P>,
    pub(crate) law: P,
}

impl<P: PhaseLaw> Model for Board<P> {
    ghost use Rattle.std.specs.Prelude.{◌≡◌, ◌+◌};
    ghost use Rattle.phase_machine.specs.Places.{word_count};
    ghost use Rattle.node_board.specs.Seen.{BoardSeen};

    ghost Value = { BoardSeen P };

    ghost view = { λ b. record { table = b.words.shared.table_id; law = b.law } };

    ghost invariant = { λ b. (b.words.shared.table_id.words ≡ word_count (P.law b.law) + 1)
        × (b.words.shared.key ≡ b.law) };
}

/// A worker's seat. Contracts see its table and what it knows.
#[derive(Drop)]
pub struct Seat<P: PhaseLaw> {
    pub(crate) place: atomic_table::Seat<(), View<P>>,
    pub(crate) phase: u32,
    pub(crate) item: u32,
}

impl<P: PhaseLaw> Model for Seat<P> {
    ghost use Rattle.std.specs.Prelude.{◌≡◌, []};
    ghost use Rattle.node_board.specs.Seen.{SeatSeen, IsWorker};
    ghost use Rattle.node_board.specs.Shows.{work_of};

    ghost Value = { SeatSeen P };

    ghost view = { λ s. record { table = s.place.table_id; view = s.place.me.0 } };

    ghost invariant = { λ s. (s.place.me.1 ≡ []) × IsWorker s.place.me.0.role
        × (s.phase ≡ (work_of s.place.me.0).tag) × (s.item ≡ (work_of s.place.me.0).item) };
}

/// The lead's seat. Contracts see its table and what it knows.
#[derive(Drop)]
pub struct Lead<P: PhaseLaw> {
    pub(crate) place: atomic_table::Seat<(), View<P>>,
    pub(crate) phase: u32,
}

impl<P: PhaseLaw> Model for Lead<P> {
    ghost use Rattle.std.specs.Prelude.{◌≡◌, []};
    ghost use Rattle.node_board.specs.Seen.{SeatSeen, IsLead, plan_of};

    ghost Value = { SeatSeen P };

    ghost view = { λ s. record { table = s.place.table_id; view = s.place.me.0 } };

    ghost invariant = { λ s. (s.place.me.1 ≡ []) × IsLead s.place.me.0.role
        × (s.phase ≡ (plan_of s.place.me.0).phase) };
}

impl<P: PhaseLaw> Board<P> {
    /// A new seat, which has done nothing. It takes no memory and waits for nobody.
    ///
    /// Fewer than 1,000,000 seats were split from this lead.
    pub fn split(&self, lead: &mut Lead<P>) -> Seat<P>
        requires from { IsOf self.now lead.old }
        requires few { seats_split lead.old.view.role < 1_000_000 }
        ensures seat { result.view ≡ new_seat lead.old.view }
        ensures of { IsOf self.now result }
        ensures lead { lead.new.view ≡ after_split lead.old.view }
        ensures from { IsOf self.now lead.new }
    {
        let place = self.words.shared.split_seat::<Splitting>(&mut lead.place);
        Seat {
            place,
            phase: 0,
            item: 0,
        }
    }
}
