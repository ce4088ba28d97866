//! Values of the texts of an input: whole numbers, clocks, dates, durations, switches, keywords and units.
//!
//! Each function gives a value exactly where the text has its form and its value lies in the range, and none elsewhere.
//! The contract that matters has both sides: the relation between text and value (`IsClock`, `IsDate`, `IsHours`, ..),
//! and the function (`clock_of`, `date_of`, `hours_of`, ..) with which the definitions of an input's lines are written.
//! They are defined in `specs/`, a file for each kind of text; the units are the table of `specs/Units`.
#![tactic(auto)]

mod clocks;
mod dates;
mod durations;
mod keywords;
mod laws;
mod quantities;
#[cfg(test)]
mod tests;
mod wholes;

pub use clocks::{clock, time_of_day};
pub use dates::date;
pub use durations::{hours, seconds};
pub use keywords::{is_word, yes_no};
pub use laws::values_are_unique;
pub use quantities::{Quantity, unit_of};
pub use wholes::whole;
