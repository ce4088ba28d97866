//! Lists of pairs whose first numbers, their keys, rise: the points of a curve, the entries of a time series.
//!
//! `first_above` finds the first pair whose key is above a number by halving the list, whatever its length; what it
//! finds is defined from the list's front on (`specs/FirstAbove.antt`). `reading` gives the value at a number on the
//! straight line between two neighbours, and `held_reading` the same where the first and the last value hold outside
//! (`specs/Readings.antt`).
#![tactic(auto, using(fixed_num::proofs::Bounds::casts))]

mod readings;
mod search;
#[cfg(test)]
mod tests;

pub use readings::{held_reading, reading, reading_is_unique};
pub use search::first_above;
