//! Direct inflows and dry weather flows of nodes, from the sections INFLOWS and DWF of an input file.
//!
//! Their lines define no name: each gives a record, and several lines of one node add up. `Counted` is such a kind of
//! record by the form of its lines, and `read_counted` reads one, with the greatest count of records as a limit
//! (`specs/Counted`). `read_inflows` and `read_dry` append what the lines give, and give the first hundred faults of
//! these lines. The laws say that lines without a fault mean these records and no others, and that what they mean lies
//! in its ranges (`specs/Laws`).
#![tactic(auto)]

mod counted;
mod dry;
mod inflows;
mod laws;
#[cfg(test)]
mod tests;

pub use counted::{Counted, read_counted};
pub use dry::read_dry;
pub use inflows::read_inflows;
pub use laws::{
    counted_are_few, counted_faults_are_of_lines, counted_have_one_meaning, dry_flows_are_sound,
    inflows_are_sound,
};
