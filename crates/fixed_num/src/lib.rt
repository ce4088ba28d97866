//! Arithmetic on whole numbers: quotients rounded to the nearest, integer roots, interpolation and ranges; and
//! the values of numbers in texts.
//!
//! `quo` is the only rounding of the engine's formulas: its answer is the number nearest to the exact quotient, ties
//! away from zero (`specs/Rounding.antt`). `root2` and `root3` give the greatest root (`specs/Roots.antt`), `lerp` the
//! value of a line between two points (`specs/Interpolation.antt`), `cut` a number brought into a range and `relaxed`
//! the value of a trial (`specs/Relaxation.antt`). The ranges of stored values have their names in `specs/Ranges.antt`,
//! sums and look-ups in lists theirs in `specs/Sums.antt` and `specs/Lists.antt`.
//!
//! `scaled_decimal` gives the value that a text stands for in a unit, and `None` exactly where the text is no number
//! (`specs/Number.antt`) or its value leaves the unit's range (`specs/Decimal.antt`). `put_decimal` writes a value in
//! its user's unit, rounded once to so many places.
#![tactic(auto)]

mod constants;
mod decimal;
mod interpolation;
mod number;
mod put;
mod ranges;
mod relaxation;
mod roots;
mod rounding;
#[cfg(test)]
mod tests;
mod unit;

pub use constants::{GRAVITY, RECORD_LIMIT};
pub use decimal::{number_is_unique, scaled_decimal, stored_is_unique};
pub use interpolation::lerp;
pub use put::put_decimal;
pub use ranges::cut;
pub use relaxation::relaxed;
pub use roots::{root2, root2_is_unique, root3, root3_is_unique};
pub use rounding::{nearest_is_unique, quo};
pub use unit::Unit;
