//! Infiltration: how much water the soil of a subcatchment takes in a step of runoff.
#![tactic(auto, using(fixed_num::proofs::Bounds::casts))]

mod curve_number;
mod depths;
mod horton;
mod infiltration;
mod method;
mod states;
#[cfg(test)]
mod tests;

pub use depths::depth_over;
pub use infiltration::{infiltrate, opening_state, start_state};
pub use states::{CurveState, HortonState, InfilState};
