//! The law of a network: what each link and each node does in one trial of a routing step.
//!
//! A trial first asks the law for the share of every link, then for the next head of every node. The
//! solvers know nothing of conduits, pumps or storages: they are written over any [`PhaseLaw`], and what
//! they compute is said in terms of the law's meaning, a record of the functions that its methods compute.
//!
//! The contract that matters: each method gives the value of the meaning, wherever its arguments are in
//! the law's ranges, and what it gives is in range again. The meaning is in `specs/Law.antt`, the ranges
//! are in `specs/Ranges.antt`.
#![tactic(auto)]

mod law;
#[cfg(test)]
mod tests;
mod values;

pub use law::PhaseLaw;
pub use values::{LinkFixed, NodeFixed, NodeNext, Share};
