// The acts of the lead.
ghost use Rattle.std.specs.Prelude.{◌≡◌, ◌+◌, ◌*◌, ◌<◌, ◌≤◌, ◌^◌, ◌↔◌, IsTrue, length};
ghost use Rattle.phase_law.specs.Laws.{IsLaw};
ghost use Rattle.phase_machine.specs.Places.{word_count};
ghost use Rattle.phase_machine.specs.Steps.{IsResting, CanLead, by_lead, closed_by, is_all};
ghost use Rattle.phase_machine.specs.Steps.{reset_count as count_of_resets};
ghost use Rattle.phase_machine.specs.Steps.{reset_place as place_of_reset, reset_value as value_of_reset};
ghost use Rattle.phase_core.specs.Ready.{HasItems, IsReady};

use crate::columns::{copy_words, fill_nets};
use crate::places::{DONE, is_of_links, item_count, least_place, node_place, written_buffer};
use crate::state::State;
use crate::values::can_set;
use crate::words::{store, word_at};
use phase_law::PhaseLaw;
use phase_machine::Act;

/// How many words are reset between two phases.
fn reset_count<P: PhaseLaw>(law: &P, phase: u64) -> u64
    ensures { result ≡ count_of_resets (P.law law.now) phase }
{
    if is_of_links(phase) {
        1
    } else {
        3 + 3 * law.nodes() as u64
    }
}

/// The place of a reset.
fn reset_place<P: PhaseLaw>(law: &P, reset: u64) -> u64
    requires good { IsLaw (P.law law.now) }
    ensures { result ≡ place_of_reset (P.law law.now) reset }
{
    if reset < 2 {
        reset
    } else if reset < 2 + 3 * law.nodes() as u64 {
        node_place(law, (reset - 2) / 3, 7 + (reset - 2) % 3)
    } else {
        least_place(law)
    }
}

/// The value that a reset stores: 0, or the greatest time (ms).
fn reset_value<P: PhaseLaw>(law: &P, reset: u64) -> i64
    ensures { result ≡ value_of_reset (P.law law.now) reset }
{
    if reset < 2 + 3 * law.nodes() as u64 {
        0
    } else {
        3_600_000
    }
}

/// Whether no phase is open and the machine wasn't stopped.
fn is_resting(state: &State) -> bool
    ensures { IsTrue result ↔ IsResting state.now }
{
    !state.is_open && !state.stopped
}

/// Whether all words were reset.
fn are_reset<P: PhaseLaw>(law: &P, state: &State) -> bool
    ensures { IsTrue result ↔ (state.now.resets ≡ count_of_resets (P.law law.now) state.now.phase) }
{
    state.resets == reset_count(law, state.phase)
}

/// Whether an act of the lead has a step.
pub(crate) fn can_lead<P: PhaseLaw>(law: &P, state: &State, act: Act) -> bool
    requires good { IsLaw (P.law law.now) }
    requires phase { state.now.phase < 2 ^ 63 }
    ensures { IsTrue result ↔ CanLead (P.law law.now) state.now act }
{
    match act {
        Act::LoadDone => state.is_open,
        Act::Reset => is_resting(state) && state.resets < reset_count(law, state.phase),
        Act::SetFixed { word, value } => {
            is_resting(state) && !is_of_links(state.phase) && can_set(law, state.phase, word, value)
        }
        Act::OpenLinks => {
            is_resting(state) && !is_of_links(state.phase) && are_reset(law, state)
        }
        Act::OpenNodes => is_resting(state) && is_of_links(state.phase) && are_reset(law, state),
        Act::Stop => is_resting(state),
        _ => false,
    }
}

/// Whether the count of done items is that of all items.
fn are_done(done: i64, count: u64) -> bool
    ensures { result ≡ is_all done count }
{
    done >= 0 && done.unsigned_abs() == count
}

/// Closes the phase. With a phase of nodes the trial is over, and its state is kept.
fn close<P: PhaseLaw>(law: &P, state: &mut State)
    requires good { IsLaw (P.law law.now) }
    requires phase { state.old.phase < 2 ^ 63 }
    requires words { length state.old.words ≡ word_count (P.law law.now) }
    requires closed { HasItems (P.law law.now) state.old.closed }
    ensures { state.new ≡ closed_by (P.law law.now) state.old }
{
    if !is_of_links(state.phase) {
        let buffer = written_buffer(state.phase);
        fill_nets(law, &state.words, buffer, &mut state.closed);
    }
    state.is_open = false;
    state.resets = 0;
}

/// Looks whether all items are done, and closes the phase if they are.
fn look_done<P: PhaseLaw>(law: &P, state: &mut State)
    requires good { IsLaw (P.law law.now) }
    requires phase { state.old.phase < 2 ^ 63 }
    requires words { length state.old.words ≡ word_count (P.law law.now) }
    requires closed { HasItems (P.law law.now) state.old.closed }
    ensures { state.new ≡ by_lead (P.law law.now) state.old Act.LoadDone }
{
    let done = word_at(&state.words, DONE);
    if are_done(done, item_count(law, state.phase)) {
        close(law, state);
    }
}

/// Resets the next word.
#[tactic(auto, using(crate::proofs::LeadLemmas::reset_within))]
fn reset<P: PhaseLaw>(law: &P, state: &mut State)
    requires good { IsLaw (P.law law.now) }
    requires words { length state.old.words ≡ word_count (P.law law.now) }
    requires left { state.old.resets < count_of_resets (P.law law.now) state.old.phase }
    ensures { state.new ≡ by_lead (P.law law.now) state.old Act.Reset }
{
    let place = reset_place(law, state.resets);
    let value = reset_value(law, state.resets);
    store(&mut state.words, place, value);
    state.resets += 1;
}

/// Opens the links of the next trial.
fn open_links<P: PhaseLaw>(law: &P, state: &mut State)
    requires phase { state.old.phase < 2 ^ 63 }
    requires opened { length state.old.opened ≡ length state.old.words }
    ensures { state.new ≡ by_lead (P.law law.now) state.old Act.OpenLinks }
{
    copy_words(&state.words, &mut state.opened);
    state.phase += 1;
    state.is_open = true;
    state.index = 0;
}

/// Opens the nodes of the trial.
fn open_nodes<P: PhaseLaw>(law: &P, state: &mut State)
    requires phase { state.old.phase < 2 ^ 63 }
    ensures { state.new ≡ by_lead (P.law law.now) state.old Act.OpenNodes }
{
    state.phase += 1;
    state.is_open = true;
    state.index = 0;
}

/// Stores a value in a word that the next trial reads.
fn set_fixed<P: PhaseLaw>(law: &P, state: &mut State, word: u32, value: i64)
    requires from { 1 ≤ word }
    requires to { word ≤ length state.old.words }
    ensures { state.new ≡ by_lead (P.law law.now) state.old (Act.SetFixed word value) }
{
    store(&mut state.words, (word - 1) as u64, value);
}

/// Makes the act of the lead that has a step.
#[tactic(auto, using(crate::proofs::LeadLemmas::set_within, crate::proofs::LeadLemmas::same_opened))]
pub(crate) fn make_lead<P: PhaseLaw>(law: &P, state: &mut State, act: Act)
    requires ready { IsReady (P.law law.now) state.old }
    requires phase { state.old.phase < 2 ^ 63 }
    requires can { CanLead (P.law law.now) state.old act }
    ensures { state.new ≡ by_lead (P.law law.now) state.old act }
{
    match act {
        Act::LoadDone => look_done(law, state),
        Act::Reset => reset(law, state),
        Act::SetFixed { word, value } => set_fixed(law, state, word, value),
        Act::OpenLinks => open_links(law, state),
        Act::OpenNodes => open_nodes(law, state),
        Act::Stop => state.stopped = true,
        _ => (),
    }
}
