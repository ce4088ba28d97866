//! Runoff: what the rain on a subcatchment becomes in a step of runoff.
//!
//! The contract that matters: [`step_sub`] gives exactly the volumes and the state of
//! `specs/RunoffStep.antt`: rain falls on
//! three subareas (`specs/Subareas.antt`), the soil of the pervious one takes its part, and over eight
//! substeps the water above
//! the depression storage runs off by Manning's formula (`specs/Overland.antt`). A run begins with the states of
//! [`start_sub`] or [`opening_sub`].
#![tactic(auto, using(fixed_num::proofs::Bounds::casts))]

mod opening;
mod overland;
mod states;
mod step;
mod subarea_step;
mod subareas;

pub use opening::{opening_sub, start_sub};
pub use states::{SubState, SubStep};
pub use step::step_sub;
