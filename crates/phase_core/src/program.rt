// The machine with its law: start, steps, trials.
ghost use Rattle.std.specs.Prelude.{◌≡◌, ◌+◌, ◌≤◌, ◌<◌, ◌^◌, ◌↔◌, true, false, length};
ghost use Rattle.std.specs.Prelude.{IsTrue, IfOk, OnOk, OnErr, IfSome, IfNone};
ghost use Rattle.trial_model.specs.Fits.{Fits};
ghost use Rattle.trial_model.specs.Trial.{trial};
ghost use Rattle.phase_machine.specs.Places.{is_odd};
ghost use Rattle.phase_machine.specs.Core.{IsStart, seat_of};
ghost use Rattle.phase_machine.specs.Steps.{Can, CanWork, after};
ghost use Rattle.phase_machine.specs.Runs.{LinksDone, NodesDone, has_trial, opened_nets, opened_first};
ghost use Rattle.phase_core.specs.Ready.{IsReady};

use crate::choices::can_work;
use crate::lead::{can_lead, make_lead};
use crate::opening::{first_words, idle_seats, same_words};
use crate::places::is_of_links;
use crate::state::State;
use crate::workers::make_work;
use net_types::OutOfMemory;
use phase_law::PhaseLaw;
use phase_machine::{Act, Event, NotNow};
use std::alloc::Global;
use std::marker::Model;
use trial_model::Nets;

/// The phase machine with its law. Contracts see the law and the core of the machine.
#[derive(Drop)]
pub struct Core<P: PhaseLaw> {
    law: P,
    state: State,
}

impl<P: PhaseLaw> Model for Core<P> {
    ghost use Rattle.phase_core.specs.Seen.{Seen};
    ghost use Rattle.phase_core.specs.Ready.{IsReady};

    ghost Value = { Seen P };

    ghost view = { λ s. record { law = s.law; core = s.state } };

    ghost invariant = { λ s. IsReady (P.law s.law) s.state };
}

/// Whether an act of a worker at a seat has a step.
fn can_work_at<P: PhaseLaw>(law: &P, state: &State, seat: usize, act: Act) -> bool
    requires ready { IsReady (P.law law.now) state.now }
    requires seat { seat < length state.now.seats }
    ensures { IsTrue result ↔ CanWork (P.law law.now) (seat_of state.now seat) act }
{
    can_work(law, &state.seats[seat], act)
}

/// Whether an event has a step.
fn can_make<P: PhaseLaw>(law: &P, state: &State, event: Event) -> bool
    requires ready { IsReady (P.law law.now) state.now }
    requires phase { state.now.phase < 2 ^ 63 }
    ensures { IsTrue result ↔ Can (P.law law.now) state.now event }
{
    let seat = event.seat as usize;
    if seat >= state.seats.len() {
        false
    } else if seat == 0 {
        can_lead(law, state, event.act)
    } else {
        can_work_at(law, state, seat, event.act)
    }
}

/// Makes the step of an event that has one.
#[tactic(auto, unfolding(phase_machine::specs::Steps::after))]
fn make<P: PhaseLaw>(law: &P, state: &mut State, event: Event)
    requires ready { IsReady (P.law law.now) state.old }
    requires phase { state.old.phase < 2 ^ 63 }
    requires can { Can (P.law law.now) state.old event }
    ensures { state.new ≡ after (P.law law.now) state.old event }
{
    if event.seat == 0 {
        make_lead(law, state, event.act);
    } else {
        make_work(law, state, event.seat as usize, event.act);
    }
}

/// Makes the step of an event, if it has one, and tells whether it had.
fn make_if<P: PhaseLaw>(law: &P, state: &mut State, event: Event) -> bool
    requires ready { IsReady (P.law law.now) state.old }
    requires phase { state.old.phase < 2 ^ 63 }
    ensures made { IsTrue result → Can (P.law law.now) state.old event }
    ensures after { IsTrue result → state.new ≡ after (P.law law.now) state.old event }
    ensures refused { result ≡ false → ¬ (Can (P.law law.now) state.old event) }
    ensures same { result ≡ false → state.new ≡ state.old }
    ensures ready { IsReady (P.law law.now) state.new }
{
    let can = can_make(law, state, event);
    if can {
        make(law, state, event);
    }
    can
}

/// Whether the links of a trial are done and its nodes weren't opened yet.
fn flows_are_done(state: &State) -> bool
    ensures { IsTrue result ↔ ((is_odd state.now.phase ≡ true) × (state.now.is_open ≡ false)) }
{
    is_of_links(state.phase) && !state.is_open
}

/// Whether a trial was closed and none is running.
fn trial_is_over(state: &State) -> bool
    ensures { result ≡ has_trial state.now }
{
    !state.is_open && !is_of_links(state.phase) && state.phase != 0
}

impl<P: PhaseLaw> Core<P> {
    /// The machine at the start: no phase is open, `nets` is the state that the first trial reads, and so many seats
    /// have done nothing. Seat 0 is the lead's.
    ///
    /// `nets` fits the law; there are 1 to 17 seats. The only error is want of memory.
    pub fn start(alloc: Global, law: P, nets: Nets, seats: u32) -> Result<Core<P>, OutOfMemory>
        requires fits { Fits (P.law law) nets }
        requires least { 1 ≤ seats }
        requires most { seats ≤ 17 }
        ensures law { IfOk result (λ c. c.law ≡ law) }
        ensures start { IfOk result (λ c. IsStart (P.law law) nets seats c.core) }
    {
        let words = first_words(alloc, &law, &nets)?;
        let opened = same_words(alloc, &words)?;
        let seats = idle_seats(alloc, seats)?;
        let state = State {
            phase: 0,
            is_open: false,
            index: 0,
            words,
            seats,
            resets: 0,
            stopped: false,
            opened,
            closed: nets,
        };
        Ok(Core { law, state })
    }

    /// The number of the phase: 0 before the first is opened, odd for links, even for nodes.
    pub fn phase(&self) -> u64
        ensures { result ≡ self.now.core.phase }
    {
        self.state.phase
    }

    /// Makes the step of an event. `NotNow` comes exactly where the machine has no such step now, and then nothing
    /// changes. It takes no memory.
    ///
    /// Fewer than 2^63 phases were opened.
    pub fn step(&mut self, event: Event) -> Result<(), NotNow>
        requires { self.old.core.phase < 2 ^ 63 }
        ensures law { self.new.law ≡ self.old.law }
        ensures made { OnOk result (Can (P.law self.old.law) self.old.core event) }
        ensures after { OnOk result (self.new.core ≡ after (P.law self.old.law) self.old.core event) }
        ensures refused { OnErr result (¬ (Can (P.law self.old.law) self.old.core event)) }
        ensures same { OnErr result (self.new.core ≡ self.old.core) }
    {
        if make_if(&self.law, &mut self.state, event) {
            Ok(())
        } else {
            Err(NotNow)
        }
    }

    /// Whether the links of a trial are done and its nodes weren't opened yet. Then the seats finished each link once,
    /// and sums, least time and flows in the words are those of the trial of what was opened.
    pub fn has_flows(&self) -> bool
        ensures phase { IsTrue result ↔ ((is_odd self.now.core.phase ≡ true) × (self.now.core.is_open ≡ false)) }
        ensures done { IsTrue result → LinksDone (P.law self.now.law) self.now.core }
    {
        flows_are_done(&self.state)
    }

    /// The state after the trial that was closed last, None exactly where a trial is running or none was made. It is
    /// the trial of what was opened, and the seats finished each node once.
    #[tactic(auto, using(crate::proofs::AfterLemmas::heads_done))]
    pub fn trial(&self) -> Option<&Nets>
        ensures some { IfSome result (λ nets. has_trial self.now.core ≡ true) }
        ensures closed { IfSome result (λ nets. nets.now ≡ self.now.core.closed) }
        ensures trial { let l = P.law self.now.law in let c = self.now.core in
            IfSome result (λ nets. nets.now ≡ trial l (opened_nets l c) (opened_first c)) }
        ensures done { IfSome result (λ nets. NodesDone (P.law self.now.law) self.now.core) }
        ensures none { IfNone result (has_trial self.now.core ≡ false) }
    {
        if trial_is_over(&self.state) {
            Some(&self.state.closed)
        } else {
            None
        }
    }
}
