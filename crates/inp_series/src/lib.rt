//! Time series, curves and time patterns, from the sections TIMESERIES, CURVES and PATTERNS of an input file. Each is
//! made of all lines of its name.
//!
//! `read_series`, `read_curves` and `read_patterns` give the records, the numbers of their names and the faults of
//! their lines, exactly as `specs/SeriesLines`, `specs/CurveLines` and `specs/PatternLines` say. Where no line is at
//! fault, the lines mean these records and no others (`series_have_one_meaning` and the like, `specs/Meaning`), and
//! these lie in their ranges (`series_are_sound` and the like).
#![tactic(auto, using(fixed_num::proofs::Bounds::casts))]

mod curves;
mod laws;
mod pairs;
mod patterns;
mod series;
#[cfg(test)]
mod tests;

pub use curves::{CurveState, curve_kinds, read_curves};
pub use laws::{
    curves_are_sound, curves_have_one_meaning, faults_are_of_sections, patterns_are_sound,
    patterns_have_one_meaning, series_are_sound, series_have_one_meaning,
};
pub use patterns::{PatternState, read_patterns};
pub use series::{SeriesState, read_series};
