//! Lines, tokens and sections of an input file, and what all readers of sections share: walks over the list of
//! lines, names and their numbers, and lists of faults in line order.
//!
//! `split_lines` makes the lines. A kind of record says by `Kind` which name a line defines, and by `RecordKind` what
//! a line is read as; `number_names` and `read_kind` walk over all lines, so that a name may stand before the line
//! that defines it. A record that is made of several lines is read by a `LineWalk`. Their contracts speak of `gather`,
//! which lists what each line gives by the lines before it (`specs/Gather`), of `defined`, the names without repeats
//! (`specs/Names`), and of `merged`, two lists of faults in line order (`specs/Merge`).
#![tactic(auto)]

mod fault;
mod kind;
#[cfg(test)]
mod kind_tests;
mod laws;
mod line;
mod merge;
mod names;
mod reading;
mod scan;
mod section;
mod split;
#[cfg(test)]
mod tests;
mod tokens;
mod walk;

pub use fault::{Fault, add_fault, copy_token, fault_of_kind, fault_of_line};
pub use kind::{
    Kind, RecordKind, count_line, naming_of_line, number_names, read_kind, read_records,
};
pub use laws::merges_in_line_order;
pub use line::{Line, SectionName};
pub use merge::merge_faults;
pub use names::{Names, Naming, add_first, naming_at, no_names, number_of};
pub use reading::{Reading, is_too_long, name_with, needed, new_name, reading_of, too_few};
pub use section::section_of;
pub use split::split_lines;
pub use tokens::tokens_are_unique;
pub use walk::{LineWalk, walk_lines};
