//! What more lines say of links: the sections XSECTIONS and LOSSES of an input file.
//!
//! Each section is a table of the items of its lines, which its file in `src/` has; `specs/CrossSections` and
//! `specs/Losses` say how the record is made of their values. A record has the number of its link; `place_sections` and
//! `place_losses` give them to the links. The laws say that what lines mean lies in its ranges, and that each has a
//! link.
#![tactic(auto)]

mod cross_sections;
mod laws;
mod losses;
#[cfg(test)]
mod tests;

pub use cross_sections::{OwnSection, place_sections, read_cross_sections};
pub use laws::{losses_are_sound, sections_are_sound};
pub use losses::{OwnLosses, place_losses, read_losses};
