//! The settings that the control rules of a project give its links.
//!
//! The contract that matters is that of [`settings_after`]: of all actions on a link that the rules take, the first of
//! the greatest priority gives its setting, and a link without one keeps the setting that it has (`specs/Settings`).
//! When a test is true stands in `specs/Tests`, what the tests look at in `specs/Conditions`. No memory is
//! taken, and each test is made at most once, each action looked at at most twice.
#![tactic(auto)]

mod facts;
mod groups;
mod laws;
mod places;
mod settings;

pub use facts::Facts;
pub use laws::{greatest_priority_decides, worked_rules};
pub use settings::settings_after;
