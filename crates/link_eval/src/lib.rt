//! The hydraulics of a network: what its links and nodes compute in the trials of a routing step.
//!
//! [`HydraulicLaw::build`] makes the laws of all nodes and links of a project, and its contract says that they are
//! `hydraulics_of` the project (`specs/Hydraulics.antt`). A [`HydraulicLaw`] is a `PhaseLaw`, whose meaning is
//! `law_of` these hydraulics; that it answers in range wherever it is asked in range follows from what it always
//! holds (`specs/Good.antt`). Each kind of link has a file of its own here and in `specs/`. Links of equal sections
//! share one table, and no contract speaks of that: a law is seen with its table (`specs/SharedTables.antt`).
#![tactic(auto, using(fixed_num::proofs::Bounds::casts))]

mod build;
mod conduit;
mod curves;
mod ends;
mod hydraulic_law;
mod hydraulics;
mod law;
mod link_law;
mod orifice;
mod pump;
mod tables;
#[cfg(test)]
mod tests;
mod weir;

pub use conduit::ConduitLaw;
pub use ends::LinkEnds;
pub use hydraulic_law::HydraulicLaw;
pub use hydraulics::{Hydraulics, Links};
pub use link_law::{LinkLaw, LinkRule};
pub use orifice::OrificeLaw;
pub use pump::PumpLaw;
pub use weir::WeirLaw;
