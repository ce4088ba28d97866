//! Records that are made of several lines of an input file, as time series and curves: all lines of a section that
//! have the same name.
//!
//! A kind of record says by `Chain` what it makes of a line by the lines of the same name before it, and `read_chain`
//! walks over all lines. Its contract says which names, which records and which faults come out (`specs/Chains`): a
//! line counts unless it has too few items or is over a limit, and a record is a function of those of its lines that
//! count.
#![tactic(auto)]

mod chain;
mod held;
mod walk;

pub use chain::{Chain, text_at};
pub use walk::{Chained, read_chain};
