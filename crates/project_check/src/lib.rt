//! The faults of a whole project, which come where no line of its input is at fault.
//!
//! The contract that matters: [`check`] gives exactly the list that `specs/ProjectFaults.antt` defines: no outfall, an
//! end before the start, a run over a limit; then at most one fault of each node, link and subcatchment
//! (`specs/Objects.antt`). A sound project whose list is empty is faultless (`specs/Faultless.antt`), and
//! [`faultless_is_good`] says what that means of its times, nodes, links and subcatchments: every crate above asks for
//! a faultless project and derives what it needs from that. [`tests_tell_facts`] says that the tests which the list is
//! made of are equal to plain facts.
#![tactic(auto)]

mod ends;
mod faults;
mod laws;
mod links;
mod network;
mod nodes;
mod subs;
mod times;

pub use ends::{NodeEnds, full_heights, node_ends};
pub use faults::check;
pub use laws::{faultless_is_good, greatest_is_greatest, tests_tell_facts};
