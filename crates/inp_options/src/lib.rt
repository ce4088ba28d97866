//! The options of an input: the lines of the section OPTIONS.
//!
//! `read_options` gives the options of a run and the warnings that they call for, and merges the faults of the option
//! lines into a list. The contract that matters says that each option has the value that the last line without a fault
//! sets, or else its default: `specs/Chosen` says which that is, `specs/OptionLines` what a line sets or which fault it
//! has, `specs/OptionNames` and `specs/Keywords` are the tables of names. The whole file is read under its last flow
//! units without a fault.
#![tactic(auto)]

mod chosen;
mod keywords;
mod laws;
mod line;
mod names;
mod options;
mod setting;
#[cfg(test)]
mod tests;
mod times;
mod values;
mod walk;
mod warnings;

pub use laws::{faults_on_option_lines, first_day, flow_units_under_any};
pub use names::OptionKind;
pub use options::read_options;
pub use setting::Setting;
