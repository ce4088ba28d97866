//! The sample input: a tree of 400 circular conduits that drain to one outfall, drawn from a number.
//!
//! `sample_text` gives the input of a number. The draws, the reaches and the text are defined in `specs/Draws.antt`,
//! `specs/Reaches.antt` and `specs/SampleText.antt`.
#![tactic(auto)]

mod draws;
mod lines;
mod reaches;
mod sample;
#[cfg(test)]
mod tests;

pub use sample::sample_text;
