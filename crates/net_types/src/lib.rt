//! The plain data that every other crate speaks of: byte texts, lists, the records of a project, its faults and
//! the account of a routing step. A `Text` is seen by contracts as the list of its bytes and a `List` as the list
//! of its items; the other types are seen field by field. All lengths are µm, areas mm², flows cm³/s, times ms and
//! volumes mm³; the records of hydrology use nm and nm/h; a name that ends in `6` counts millionths.
//!
//! `specs/Ranges.antt` has the range of each record, `specs/Sound.antt` says when a whole project is sound: its records
//! in range, its numbers naming objects, its counts within their limits. `FaultKind` is the one home of the numbers and
//! words of faults (`specs/Faults.antt`).
#![tactic(auto)]

mod account;
mod faults;
mod hydrology;
mod inflows;
mod list;
mod memory;
mod network;
mod options;
mod project;
mod rules;
mod tables;
#[cfg(test)]
mod tests;
mod text;

pub use account::StepAccount;
pub use faults::{FaultKind, LineFault, ProjectFault, numbers_have_one_kind};
pub use hydrology::{Gage, Infil, Sub, SubAreas};
pub use inflows::{DryFlow, Inflow};
pub use list::List;
pub use memory::OutOfMemory;
pub use network::{Link, LinkKind, Node, NodeKind, Section, Shape, Stage, StoreShape};
pub use options::{Damping, FlowUnits, InfilKind, Limiter, Options};
pub use project::Project;
pub use rules::{Action, Relation, Rule, Subject, Test};
pub use tables::{Curve, CurveKind, Pattern, PatternKind, Series};
pub use text::Text;
