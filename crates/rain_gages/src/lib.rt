//! Rain gages: how much rain falls at a gage at a moment.
//!
//! `intensity` gives the rate in nm/h. It is that of the last entry of the gage's series that is not later than the
//! moment, while the entry is younger than the gage's interval (`specs/Rain.antt`), in the unit of a rate
//! (`specs/Intensity.antt`). The entry is found by halving the series.
#![tactic(auto, using(fixed_num::proofs::Bounds::casts))]

mod gages;
mod laws;
mod rain;
#[cfg(test)]
mod tests;

pub use gages::intensity;
pub use laws::rain_is_of_the_last_entry;
