//! Lines that say more of an object that another line defines, as its cross-section or its infiltration: an object has
//! one such line of a section at most.
//!
//! Such a line begins with the name of its owner. Its name counts as repeated where a line before it has the same
//! owner, so that a second line is at fault; a name of no object is at fault for itself and hides no later line
//! (`specs/Owners`). `owned_is_meant` is the law that what is read of lines without a fault is what they mean.
//! `place_owned` writes what lines say into their objects (`specs/Placing`).
#![tactic(auto)]

mod laws;
mod owners;
mod placing;

pub use laws::{owned_faults_are_of_lines, owned_is_meant};
pub use owners::owner_name;
pub use placing::{Owned, place_owned};
