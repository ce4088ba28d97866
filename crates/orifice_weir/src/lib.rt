//! The flow through an orifice and over a weir in one trial of a routing step.
//!
//! [`orifice_flow`] gives exactly the flow of `specs/OrificeFlow.antt`, by the area of the opening up to
//! [`orifice_depth`], and [`weir_flow`] that of `specs/WeirFlow.antt`. Both are flows before the trial relaxes them and
//! gates bar them.
#![tactic(auto, using(fixed_num::proofs::Bounds::casts))]

mod heads;
mod orifice;
mod submergence;
#[cfg(test)]
mod tests;
mod weir;

pub use orifice::{OrificeData, orifice_depth, orifice_flow};
pub use weir::{WeirData, weir_flow};
