//! The flow of a pump in one trial of a routing step, and its setting by the depth at its inlet.
//!
//! [`pump_flow`] gives exactly the flow of `specs/PumpFlow.antt`: the reading of the pump's curve, scaled to
//! flow, by the
//! setting. It is the flow before the trial relaxes it. [`pump_setting`] starts and stops a pump
//! (`specs/PumpSetting.antt`).
#![tactic(auto, using(fixed_num::proofs::Bounds::casts))]

mod curve;
mod flow;
mod setting;
#[cfg(test)]
mod tests;

pub use flow::{PumpInlet, PumpUnits, pump_flow};
pub use setting::pump_setting;
