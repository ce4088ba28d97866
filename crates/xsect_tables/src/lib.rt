//! The table of a cross-section: 201 grid heights, and the area and the wetted perimeter below each and the width at
//! it.
//!
//! `Table::build` makes the table of a section; its contract says that the table is `table_of` the section, whose
//! rows are sums over the strips below each grid height (`specs/SectionTable.antt`). Between grid heights a row is
//! read on the straight line, and above its top a closed section goes on as a narrow slot (`specs/LookUps.antt`).
//! `celerity`, `normal_flow`, and the critical and the normal depth of a flow are in `specs/NormalFlow.antt`. A
//! contract sees a `Table` as its four rows, its barrels and whether it is closed; what holds of every table is
//! `IsTable`.
#![tactic(auto, using(fixed_num::proofs::Bounds::casts))]

mod flow;
mod look_up;
mod rows;
mod table;
#[cfg(test)]
mod tests;

pub use flow::{EndSection, FlowSection, celerity, reaches_celerity};
pub use table::Table;
