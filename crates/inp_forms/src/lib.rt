//! Line forms: what the items of a line of a section have to be, as a table, and one reader of all such tables.
//!
//! A form is a list of items (`Item`), one for each place of a line, and how the record is made of their values. The
//! reading of a line has its values, or its one fault: too few items, or else the first item at fault. `read_values`
//! reads the items of a form, and `read_row` a whole line. Their contracts say exactly which values and which fault
//! (`specs/Items`, `specs/Forms`); `values_are_read` is the law that these are the values that the line means, said of
//! each kind of item on its own (`specs/Meaning`). The names of an input are numbered once and lent to all readers
//! (`Known`, `specs/Context`).
#![tactic(auto)]

mod form;
mod found;
mod getters;
mod item;
mod items;
mod known;
mod laws;
mod numbers;
#[cfg(test)]
mod tests;
mod words;

pub use form::{Form, name_row, read_row};
pub use found::{found_value, read_value};
pub use getters::{amount, choice, index, index_or_none, is_on, value_at};
pub use item::{Item, Objects, Value, What};
pub use items::{least_of, read_values};
pub use known::{Known, object_number};
pub use laws::{faults_are_of_forms, records_are_meant, values_are_read};
pub use words::{Keyword, Words};
