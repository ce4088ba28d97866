//! Reads a whole input into a project, or gives the faults of its lines.
//!
//! `read_project` splits an input into lines, and lets the crates of the sections read them. It answers with the first
//! hundred faults exactly where some line is at fault, and else with the project that the lines mean (`ReadsAs` in
//! `specs/Reading`). Which fault a line has is `specs/LineFaults`, and what lines mean is `specs/Meaning`;
//! `lines_have_one_meaning` is the law that they mean no two projects, and `lines_without_a_fault_have_a_meaning` that
//! they mean one. What those who compute with a project may rely on, its ranges and that its numbers name objects of
//! it, is `specs/Soundness`.
#![tactic(auto)]

mod flows;
mod known;
mod laws;
mod network;
mod others;
mod project;
mod reading;
mod surface;
#[cfg(test)]
mod tests;
mod title;

pub use laws::{
    lines_have_one_fault, lines_have_one_meaning, lines_without_a_fault_have_a_meaning,
};
pub use reading::{Read, read_project};
