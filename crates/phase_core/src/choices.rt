// When an act of a worker has a step.
ghost use Rattle.std.specs.Prelude.{◌≡◌, ◌<◌, ◌≤◌, ◌↔◌, IsTrue, false};
ghost use Rattle.phase_law.specs.Laws.{IsLaw};
ghost use Rattle.phase_machine.specs.Places.{is_odd};
ghost use Rattle.phase_machine.specs.Items.{last_stage};
ghost use Rattle.phase_machine.specs.Asks.{AsksNode};
ghost use Rattle.phase_machine.specs.Steps.{HasLink, HasNode, CanWork};

use crate::asks::next_of;
use crate::places::{input_count, is_of_links};
use crate::seat::Seat;
use phase_law::PhaseLaw;
use phase_machine::Act;

/// Whether a seat has an item of a link at a stage.
fn has_link(seat: &Seat, stage: u64) -> bool
    ensures { IsTrue result ↔ HasLink seat.now stage }
{
    is_of_links(seat.tag()) && seat.stage() == stage
}

/// Whether a seat has an item of a node at a stage.
fn has_node(seat: &Seat, stage: u64) -> bool
    ensures { IsTrue result ↔ HasNode seat.now stage }
{
    !is_of_links(seat.tag()) && seat.stage() == stage
}

/// Whether a seat with a node at the stage of marks is to mark it.
fn has_mark<P: PhaseLaw>(law: &P, seat: &Seat) -> bool
    requires good { IsLaw (P.law law.now) }
    requires asks { is_odd seat.now.tag ≡ false → 12 ≤ seat.now.stage → AsksNode (P.law law.now) seat.now }
    ensures { IsTrue result ↔ CanWork (P.law law.now) seat.now Act.MarkUnsettled }
{
    has_node(seat, 12) && !next_of(law, seat).settled
}

/// Whether a seat has made all acts of its item.
fn has_last<P: PhaseLaw>(law: &P, seat: &Seat) -> bool
    requires good { IsLaw (P.law law.now) }
    requires asks { is_odd seat.now.tag ≡ false → 12 ≤ seat.now.stage → AsksNode (P.law law.now) seat.now }
    ensures { IsTrue result ↔ CanWork (P.law law.now) seat.now Act.Done }
{
    if is_of_links(seat.tag()) {
        return seat.stage() == 15;
    }
    match seat.stage() {
        12 => next_of(law, seat).settled,
        13 => !next_of(law, seat).settled,
        _ => false,
    }
}

/// Whether an act of a worker has a step.
pub(crate) fn can_work<P: PhaseLaw>(law: &P, seat: &Seat, act: Act) -> bool
    requires good { IsLaw (P.law law.now) }
    requires asks { is_odd seat.now.tag ≡ false → 12 ≤ seat.now.stage → AsksNode (P.law law.now) seat.now }
    ensures { IsTrue result ↔ CanWork (P.law law.now) seat.now act }
{
    match act {
        Act::Look => seat.stage() == 0,
        Act::Claim => seat.stage() == 0 && seat.look() >= 1,
        Act::LoadInput => seat.stage() >= 1 && seat.stage() <= input_count(seat.tag()),
        Act::AddFirst => has_link(seat, 9),
        Act::AddSecond => has_link(seat, 10),
        Act::AddAreaFirst => has_link(seat, 11),
        Act::AddAreaSecond => has_link(seat, 12),
        Act::OfferTime => has_link(seat, 13),
        Act::PutFlow => has_link(seat, 14),
        Act::LoadSums => { !is_of_links(seat.tag()) && seat.stage() >= 8 && seat.stage() < 11 }
        Act::PutHead => has_node(seat, 11),
        Act::MarkUnsettled => has_mark(law, seat),
        Act::Done => has_last(law, seat),
        _ => false,
    }
}
