//! The shapes of storages: the area and the volume of a storage at a depth.
//!
//! The contracts that matter: [`shape_area`] gives the area at a depth that `specs/ShapeArea.antt` defines, by a curve
//! or by half powers, and [`StoreTable`] is the table of `specs/StoreTable.antt` made from it: 200 strips, whose
//! volumes are sums over the strips below.
#![tactic(auto, using(fixed_num::proofs::Bounds::casts))]

mod powers;
mod rows;
mod shapes;
mod table;

pub use shapes::{StoreUnits, shape_area};
pub use table::StoreTable;
