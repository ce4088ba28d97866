// The acts on a link's item after its loads.
ghost use Rattle.std.specs.Prelude.{◌≡◌, ◌<◌};
ghost use Rattle.phase_machine.specs.Items.{share_at};
ghost use Rattle.phase_machine.specs.declared.acts.Act.TheVariants.{Done};
ghost use Rattle.phase_machine.specs.Steps.{further, CanWork};
ghost use Rattle.node_board.specs.Acts.{ReadyLink, CanDeposit};
ghost use Rattle.node_board.specs.Plays.{at_work};
ghost use Rattle.node_board.specs.Seen.{IsOf};
ghost use Rattle.node_board.specs.Shows.{work_of};

use crate::board::{Board, Seat};
use crate::places::{
    AREA, least_word, leaving_part, link_word, node_word, reaching_part, signed_word,
    written_buffer,
};
use crate::plays::Working;
use phase_law::PhaseLaw;

impl<P: PhaseLaw> Board<P> {
    /// Adds an amount to a sum of a node: 0 inflow, 1 outflow, 2 area.
    fn add(&self, seat: &mut Seat<P>, node: u32, sum: u32, amount: u64)
        requires from { IsOf self.now seat.old }
        requires sum { sum < 3 }
        requires can { CanDeposit (P.law self.now.law) (work_of seat.old.view)
            (record { node = node; sum = sum; amount = amount }) }
        ensures from { IsOf self.now seat.new }
        ensures view { seat.new.view ≡ at_work seat.old.view (further (work_of seat.old.view)) }
    {
        let word = node_word(&self.law, node, 7 + sum);
        self.words
            .shared
            .fetch_add::<Working>(&mut seat.place, word, amount);
    }

    /// Adds the flow of the seat's link to the sums of its first end (cm³/s). It takes no memory and waits for nobody.
    ///
    /// The flow is that of the law's share of what the seat loaded.
    pub fn add_first(&self, seat: &mut Seat<P>, q: i64)
        requires from { IsOf self.now seat.old }
        requires ready { ReadyLink (P.law self.now.law) 9 (work_of seat.old.view) }
        requires share { q ≡ (share_at (P.law self.now.law) (work_of seat.old.view)).q }
        ensures from { IsOf self.now seat.new }
        ensures view { seat.new.view ≡ at_work seat.old.view (further (work_of seat.old.view)) }
        ensures ready { ReadyLink (P.law self.now.law) 10 (work_of seat.new.view) }
        ensures share { let law = P.law self.now.law in
            share_at law (work_of seat.new.view) ≡ share_at law (work_of seat.old.view) }
    {
        let (near, _) = self.law.ends(seat.item);
        let (sum, amount) = leaving_part(q);
        self.add(seat, near, sum, amount);
    }

    /// Adds the flow of the seat's link to the sums of its second end (cm³/s). It takes no memory and waits for nobody.
    ///
    /// The flow is that of the law's share of what the seat loaded.
    pub fn add_second(&self, seat: &mut Seat<P>, q: i64)
        requires from { IsOf self.now seat.old }
        requires ready { ReadyLink (P.law self.now.law) 10 (work_of seat.old.view) }
        requires share { q ≡ (share_at (P.law self.now.law) (work_of seat.old.view)).q }
        ensures from { IsOf self.now seat.new }
        ensures view { seat.new.view ≡ at_work seat.old.view (further (work_of seat.old.view)) }
        ensures ready { ReadyLink (P.law self.now.law) 11 (work_of seat.new.view) }
        ensures share { let law = P.law self.now.law in
            share_at law (work_of seat.new.view) ≡ share_at law (work_of seat.old.view) }
    {
        let (_, far) = self.law.ends(seat.item);
        let (sum, amount) = reaching_part(q);
        self.add(seat, far, sum, amount);
    }

    /// Adds the first area of the seat's link to that of its first end (mm²). It takes no memory and waits for nobody.
    ///
    /// The area is that of the law's share of what the seat loaded.
    pub fn add_area_first(&self, seat: &mut Seat<P>, area: i64)
        requires from { IsOf self.now seat.old }
        requires ready { ReadyLink (P.law self.now.law) 11 (work_of seat.old.view) }
        requires share { area ≡ (share_at (P.law self.now.law) (work_of seat.old.view)).area1 }
        ensures from { IsOf self.now seat.new }
        ensures view { seat.new.view ≡ at_work seat.old.view (further (work_of seat.old.view)) }
        ensures ready { ReadyLink (P.law self.now.law) 12 (work_of seat.new.view) }
        ensures share { let law = P.law self.now.law in
            share_at law (work_of seat.new.view) ≡ share_at law (work_of seat.old.view) }
    {
        let (near, _) = self.law.ends(seat.item);
        self.add(seat, near, AREA, area.unsigned_abs());
    }

    /// Adds the second area of the seat's link to that of its second end (mm²). It takes no memory and waits for
    /// nobody.
    ///
    /// The area is that of the law's share of what the seat loaded.
    pub fn add_area_second(&self, seat: &mut Seat<P>, area: i64)
        requires from { IsOf self.now seat.old }
        requires ready { ReadyLink (P.law self.now.law) 12 (work_of seat.old.view) }
        requires share { area ≡ (share_at (P.law self.now.law) (work_of seat.old.view)).area2 }
        ensures from { IsOf self.now seat.new }
        ensures view { seat.new.view ≡ at_work seat.old.view (further (work_of seat.old.view)) }
        ensures ready { ReadyLink (P.law self.now.law) 13 (work_of seat.new.view) }
        ensures share { let law = P.law self.now.law in
            share_at law (work_of seat.new.view) ≡ share_at law (work_of seat.old.view) }
    {
        let (_, far) = self.law.ends(seat.item);
        self.add(seat, far, AREA, area.unsigned_abs());
    }

    /// Makes the least word the lesser of itself and the time of the seat's link (ms). It takes no memory and waits
    /// for nobody.
    ///
    /// The time is that of the law's share of what the seat loaded.
    pub fn offer_time(&self, seat: &mut Seat<P>, time: i64)
        requires from { IsOf self.now seat.old }
        requires ready { ReadyLink (P.law self.now.law) 13 (work_of seat.old.view) }
        requires share { time ≡ (share_at (P.law self.now.law) (work_of seat.old.view)).time }
        ensures from { IsOf self.now seat.new }
        ensures view { seat.new.view ≡ at_work seat.old.view (further (work_of seat.old.view)) }
        ensures ready { ReadyLink (P.law self.now.law) 14 (work_of seat.new.view) }
        ensures share { let law = P.law self.now.law in
            share_at law (work_of seat.new.view) ≡ share_at law (work_of seat.old.view) }
    {
        let word = least_word(&self.law);
        self.words
            .shared
            .fetch_min::<Working>(&mut seat.place, word, time.unsigned_abs());
    }

    /// Stores the flow of the seat's link for the next trial (cm³/s). It takes no memory and waits for nobody.
    ///
    /// The flow is that of the law's share of what the seat loaded.
    pub fn put_flow(&self, seat: &mut Seat<P>, q: i64)
        requires from { IsOf self.now seat.old }
        requires ready { ReadyLink (P.law self.now.law) 14 (work_of seat.old.view) }
        requires share { q ≡ (share_at (P.law self.now.law) (work_of seat.old.view)).q }
        ensures from { IsOf self.now seat.new }
        ensures view { seat.new.view ≡ at_work seat.old.view (further (work_of seat.old.view)) }
        ensures made { CanWork (P.law self.now.law) (work_of seat.new.view) Done }
    {
        let word = link_word(seat.item, 4 + written_buffer(seat.phase));
        self.words
            .shared
            .store::<Working>(&mut seat.place, word, signed_word(q));
    }
}
