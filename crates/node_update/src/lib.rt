//! How a node answers to its inflow: its next head in a trial, its flood and its volume.
//!
//! `NodeLaw::build` takes from a faultless project what the answers depend on (`specs/NodeLaws.antt`), and
//! `node_laws` does so for all nodes: junctions, which may pond; storages, with the table of their shape; and outfalls,
//! at their stage or by the conduit that ends there (`specs/OutfallConduits.antt`). `next`, `flood` and `volume` are
//! the formulas of `specs/NodeUpdate.antt`. What callers need besides is on the contracts: a head stays within
//! 2·10^10 µm, and that of a junction or a storage, once it is at or below the top, does not leave it.
#![tactic(auto, using(fixed_num::proofs::Bounds::casts))]

mod build;
mod ends;
mod gain;
mod junction;
mod laws;
mod node_law;
mod outfall;
mod shelf;
mod storage;
#[cfg(test)]
mod tests;
mod update;

pub use build::node_laws;
pub use gain::gain as node_gain;
pub use laws::stays_below_its_top;
pub use node_law::{NodeLaw, NodeRule, OutfallConduit, OutfallLevel};
pub use shelf::Shelf;
