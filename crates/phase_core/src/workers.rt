// The acts of workers.
ghost use Rattle.std.specs.Prelude.{◌≡◌, ◌+◌, ◌-◌, ◌<◌, ◌≤◌, ◌^◌, ◌∷◌, [], length, if◌then◌else◌, nat_lt};
ghost use Rattle.std.specs.Prelude.{slice_index_or, slice_set};
ghost use Rattle.phase_machine.specs.Core.{idle, seat_of, finished_in};
ghost use Rattle.phase_machine.specs.Steps.{CanWork, by_worker};
ghost use Rattle.phase_core.specs.Ready.{IsReady};
ghost use Rattle.phase_core.specs.Room.{ReadyForLink, ReadyForNode, ReadyForLoad, ReadyForEnd};

use crate::items::{
    add_first_area, add_first_flow, add_second_area, add_second_flow, offer_least, store_flow,
    store_head,
};
use crate::places::{DONE, UNSETTLED, input_place, item_count};
use crate::seat::Seat;
use crate::seats::{advance, finish, keep_load, keep_look, take_item};
use crate::state::State;
use crate::words::{add, word_at};
use phase_law::PhaseLaw;
use phase_machine::Act;

/// The phase that a look sees: the phase if items are left, else 0.
fn seen_phase(phase: u64, index: u64, count: u64) -> u64
    ensures { result ≡ (if nat_lt index count then phase else 0) }
{
    if index < count { phase } else { 0 }
}

/// A seat takes the item that a claim found, if there is one.
fn claim_item(seats: &mut [Seat], seat: usize, phase: u64, index: u64, count: u64)
    requires { seat < length seats.old }
    ensures { let w = slice_index_or seats.old seat idle in
        seats.new ≡ slice_set seats.old seat (if nat_lt index count
        then record { look = 0; tag = phase; stage = 1; item = index; loaded = []; finished = finished_in phase w }
        else record w { look = 0 }) }
{
    if index < count {
        take_item(seats, seat, phase, index);
    } else {
        keep_look(seats, seat, 0);
    }
}

/// Looks whether items are left.
#[tactic(auto, unfolding(phase_machine::specs::Steps::work_after, phase_machine::specs::Steps::words_after))]
fn look<P: PhaseLaw>(law: &P, state: &mut State, seat: usize)
    requires { seat < length state.old.seats }
    ensures { state.new ≡ by_worker (P.law law.now) state.old seat Act.Look }
{
    let seen = seen_phase(state.phase, state.index, item_count(law, state.phase));
    keep_look(state.seats.as_mut_slice(), seat, seen);
}

/// Claims the next item.
#[tactic(auto, unfolding(phase_machine::specs::Steps::work_after, phase_machine::specs::Steps::words_after))]
fn claim<P: PhaseLaw>(law: &P, state: &mut State, seat: usize)
    requires seat { seat < length state.old.seats }
    requires index { state.old.index < 2 ^ 63 }
    ensures { state.new ≡ by_worker (P.law law.now) state.old seat Act.Claim }
{
    let count = item_count(law, state.phase);
    claim_item(
        state.seats.as_mut_slice(),
        seat,
        state.phase,
        state.index,
        count,
    );
    state.index += 1;
}

/// Loads the next input of its item.
#[tactic(auto, unfolding(phase_machine::specs::Steps::work_after, phase_machine::specs::Steps::words_after))]
fn load<P: PhaseLaw>(law: &P, state: &mut State, seat: usize)
    requires seat { seat < length state.old.seats }
    requires ready { ReadyForLoad (P.law law.now) state.old.words (seat_of state.old seat) }
    ensures input { state.new ≡ by_worker (P.law law.now) state.old seat Act.LoadInput }
    ensures sums { state.new ≡ by_worker (P.law law.now) state.old seat Act.LoadSums }
{
    let one = &state.seats[seat];
    let place = input_place(law, one, one.stage() - 1);
    let value = word_at(&state.words, place);
    keep_load(state.seats.as_mut_slice(), seat, value);
}

/// Adds the flow of its link at the first end.
#[tactic(auto, unfolding(phase_machine::specs::Steps::work_after, phase_machine::specs::Steps::words_after))]
fn add_first<P: PhaseLaw>(law: &P, state: &mut State, seat: usize)
    requires seat { seat < length state.old.seats }
    requires ready { ReadyForLink (P.law law.now) state.old.words (seat_of state.old seat) }
    ensures { state.new ≡ by_worker (P.law law.now) state.old seat Act.AddFirst }
{
    add_first_flow(law, &mut state.words, &state.seats[seat]);
    advance(state.seats.as_mut_slice(), seat);
}

/// Adds the flow of its link at the second end.
#[tactic(auto, unfolding(phase_machine::specs::Steps::work_after, phase_machine::specs::Steps::words_after))]
fn add_second<P: PhaseLaw>(law: &P, state: &mut State, seat: usize)
    requires seat { seat < length state.old.seats }
    requires ready { ReadyForLink (P.law law.now) state.old.words (seat_of state.old seat) }
    ensures { state.new ≡ by_worker (P.law law.now) state.old seat Act.AddSecond }
{
    add_second_flow(law, &mut state.words, &state.seats[seat]);
    advance(state.seats.as_mut_slice(), seat);
}

/// Adds the area of its link at the first end.
#[tactic(auto, unfolding(phase_machine::specs::Steps::work_after, phase_machine::specs::Steps::words_after))]
fn add_area_first<P: PhaseLaw>(law: &P, state: &mut State, seat: usize)
    requires seat { seat < length state.old.seats }
    requires ready { ReadyForLink (P.law law.now) state.old.words (seat_of state.old seat) }
    ensures { state.new ≡ by_worker (P.law law.now) state.old seat Act.AddAreaFirst }
{
    add_first_area(law, &mut state.words, &state.seats[seat]);
    advance(state.seats.as_mut_slice(), seat);
}

/// Adds the area of its link at the second end.
#[tactic(auto, unfolding(phase_machine::specs::Steps::work_after, phase_machine::specs::Steps::words_after))]
fn add_area_second<P: PhaseLaw>(law: &P, state: &mut State, seat: usize)
    requires seat { seat < length state.old.seats }
    requires ready { ReadyForLink (P.law law.now) state.old.words (seat_of state.old seat) }
    ensures { state.new ≡ by_worker (P.law law.now) state.old seat Act.AddAreaSecond }
{
    add_second_area(law, &mut state.words, &state.seats[seat]);
    advance(state.seats.as_mut_slice(), seat);
}

/// Offers the time of its link.
#[tactic(auto, unfolding(phase_machine::specs::Steps::work_after, phase_machine::specs::Steps::words_after))]
fn offer_time<P: PhaseLaw>(law: &P, state: &mut State, seat: usize)
    requires seat { seat < length state.old.seats }
    requires ready { ReadyForLink (P.law law.now) state.old.words (seat_of state.old seat) }
    ensures { state.new ≡ by_worker (P.law law.now) state.old seat Act.OfferTime }
{
    offer_least(law, &mut state.words, &state.seats[seat]);
    advance(state.seats.as_mut_slice(), seat);
}

/// Puts the flow of its link.
#[tactic(auto, unfolding(phase_machine::specs::Steps::work_after, phase_machine::specs::Steps::words_after))]
fn put_flow<P: PhaseLaw>(law: &P, state: &mut State, seat: usize)
    requires seat { seat < length state.old.seats }
    requires ready { ReadyForLink (P.law law.now) state.old.words (seat_of state.old seat) }
    ensures { state.new ≡ by_worker (P.law law.now) state.old seat Act.PutFlow }
{
    store_flow(law, &mut state.words, &state.seats[seat]);
    advance(state.seats.as_mut_slice(), seat);
}

/// Puts the next head of its node.
#[tactic(auto, unfolding(phase_machine::specs::Steps::work_after, phase_machine::specs::Steps::words_after))]
fn put_head<P: PhaseLaw>(law: &P, state: &mut State, seat: usize)
    requires seat { seat < length state.old.seats }
    requires ready { ReadyForNode (P.law law.now) state.old.words (seat_of state.old seat) }
    ensures { state.new ≡ by_worker (P.law law.now) state.old seat Act.PutHead }
{
    store_head(law, &mut state.words, &state.seats[seat]);
    advance(state.seats.as_mut_slice(), seat);
}

/// Marks its node as unsettled.
#[tactic(auto, unfolding(phase_machine::specs::Steps::work_after, phase_machine::specs::Steps::words_after))]
fn mark_unsettled<P: PhaseLaw>(law: &P, state: &mut State, seat: usize)
    requires seat { seat < length state.old.seats }
    requires ready { ReadyForNode (P.law law.now) state.old.words (seat_of state.old seat) }
    ensures { state.new ≡ by_worker (P.law law.now) state.old seat Act.MarkUnsettled }
{
    add(&mut state.words, UNSETTLED, 1);
    advance(state.seats.as_mut_slice(), seat);
}

/// Ends its item.
#[tactic(auto, unfolding(phase_machine::specs::Steps::work_after, phase_machine::specs::Steps::words_after))]
fn end_item<P: PhaseLaw>(law: &P, state: &mut State, seat: usize)
    requires seat { seat < length state.old.seats }
    requires ready { ReadyForEnd (P.law law.now) state.old.words (seat_of state.old seat) }
    ensures { state.new ≡ by_worker (P.law law.now) state.old seat Act.Done }
{
    add(&mut state.words, DONE, 1);
    finish(state.seats.as_mut_slice(), seat);
}

/// Makes the act of a worker that has a step.
#[tactic(auto, using(crate::proofs::ReadyLemmas::worker_room))]
pub(crate) fn make_work<P: PhaseLaw>(law: &P, state: &mut State, seat: usize, act: Act)
    requires ready { IsReady (P.law law.now) state.old }
    requires phase { state.old.phase < 2 ^ 63 }
    requires seat { seat < length state.old.seats }
    requires can { CanWork (P.law law.now) (seat_of state.old seat) act }
    ensures { state.new ≡ by_worker (P.law law.now) state.old seat act }
{
    match act {
        Act::Look => look(law, state, seat),
        Act::Claim => claim(law, state, seat),
        Act::LoadInput | Act::LoadSums => load(law, state, seat),
        Act::AddFirst => add_first(law, state, seat),
        Act::AddSecond => add_second(law, state, seat),
        Act::AddAreaFirst => add_area_first(law, state, seat),
        Act::AddAreaSecond => add_area_second(law, state, seat),
        Act::OfferTime => offer_time(law, state, seat),
        Act::PutFlow => put_flow(law, state, seat),
        Act::PutHead => put_head(law, state, seat),
        Act::MarkUnsettled => mark_unsettled(law, state, seat),
        Act::Done => end_item(law, state, seat),
        _ => (),
    }
}
