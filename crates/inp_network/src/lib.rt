//! The nodes and links of a drainage network, from the sections JUNCTIONS, OUTFALLS, STORAGE, CONDUITS, PUMPS,
//! ORIFICES and WEIRS of an input file.
//!
//! Each section is a table of the items of its lines, which its file in `src/` has, and `specs/Nodes` and
//! `specs/Links` say how the record is made of their values. `read_nodes` and `read_links` append what the lines give,
//! and give the faults of these lines; where there is none, the lines mean these records and no others
//! (`nodes_have_one_meaning`, `links_have_one_meaning`). `nodes_are_sound` and `links_are_sound` are the laws that
//! what lines mean lies in its ranges.
#![tactic(auto)]

mod conduits;
mod junctions;
mod laws;
mod link_sections;
mod links;
mod nodes;
mod orifices;
mod outfalls;
mod pumps;
mod storages;
#[cfg(test)]
mod tests;
mod weirs;

pub use laws::{
    link_faults_are_of_lines, links_are_sound, links_have_one_meaning, node_faults_are_of_lines,
    nodes_are_sound, nodes_have_one_meaning,
};
pub use link_sections::read_link_sections;
pub use links::{number_links, read_links};
pub use nodes::{number_nodes, read_nodes};
