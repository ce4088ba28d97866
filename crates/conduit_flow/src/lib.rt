//! The flow of a conduit in one trial of a routing step, and the water that stands in it.
//!
//! The contract that matters: [`conduit_share`] gives exactly the share that `specs/ConduitShare.antt` defines: the
//! flow of the momentum equation (`specs/Momentum.antt`), held to the normal flow, under-relaxed, barred by flap
//! gates and dry ends and cut to the greatest flow (`specs/Limits.antt`), and the water surface that the conduit adds
//! at each end (`specs/Geometry.antt`). [`mid_area`] and [`conduit_volume`] give the area of flow in its middle and
//! its volume. What a conduit and its section table have to be is in `specs/Conduits.antt`.
#![tactic(auto, using(fixed_num::proofs::Bounds::casts))]

mod conduit;
mod geometry;
mod limits;
mod momentum;
mod share;
#[cfg(test)]
mod tests;
mod travel;

pub use conduit::ConduitData;
pub use geometry::{conduit_volume, mid_area};
pub use share::conduit_share;
