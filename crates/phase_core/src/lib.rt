//! The phase machine as a program: how any number of seats share the work of the trials of a routing step, one step
//! after the other.
//!
//! [`Core::start`] gives a machine at the start, [`Core::step`] makes the step of an event or answers that it has none.
//! The contracts that matter: each step is that of the phase machine (`phase_machine/specs/Steps.antt`), `NotNow` comes
//! exactly where the machine has no step for the event, and then nothing changes. So what the laws of `phase_machine`
//! say of every list of events holds of every `Core`: [`Core::has_flows`] and [`Core::trial`] tell when the links or
//! the nodes of a trial are done, and that sums, flows, heads and the least time are then those of one worker.
//!
//! A step takes no memory: a seat has room for all items of a phase from the start (`seat.rt`).
#![tactic(auto)]

mod asks;
mod choices;
mod columns;
mod items;
mod lead;
mod opening;
mod places;
mod program;
mod seat;
mod seats;
mod state;
#[cfg(test)]
mod tests;
mod values;
mod words;
mod workers;

pub use program::Core;
