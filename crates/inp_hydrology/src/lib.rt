//! Rain gages and subcatchments, from the sections RAINGAGES, SUBCATCHMENTS, SUBAREAS, INFILTRATION and EVAPORATION of
//! an input file.
//!
//! Each section is a table of the items of its lines, which its file in `src/` has; `specs/Gages`,
//! `specs/Subcatchments`, `specs/Areas`, `specs/Soil` and `specs/Evaporation` say how the record is made of their
//! values. A subcatchment is read without the lines of other sections that say more of it; these are read as lists of
//! their own, by the number of the subcatchment, and `place_areas` and `place_infil` give them to it. The laws say that
//! lines without a fault mean what is read of them, and that what they mean lies in its ranges.
#![tactic(auto)]

mod areas;
mod evaporation;
mod gages;
mod laws;
mod soil;
mod subcatchments;
#[cfg(test)]
mod tests;

pub use areas::{OwnAreas, place_areas, read_areas};
pub use evaporation::read_evaporation;
pub use gages::{number_gages, read_gages};
pub use laws::{
    areas_are_sound, gages_are_sound, gages_have_one_meaning, soil_is_sound, subs_are_sound,
    subs_have_one_meaning,
};
pub use soil::{OwnInfil, place_infil, read_soil};
pub use subcatchments::{number_subs, read_subs};
