//! Quotients and points of lines without a division, for the loops over steps and trials.
//!
//! A caller that divides by the same number many times keeps its [`inverse`], and a product with that takes the place
//! of the division. What it gives is tried, and where it is not the answer the division is made after all, so the
//! contracts are those of `fixed_num`: [`nearest`] is its rounded quotient, [`line_at`] its `lerp`
//! (`fixed_num/specs/Rounding.antt` and `Interpolation.antt`), whatever number stands for the inverse.
//! [`quick_quo`] is that quotient of small numbers, [`quick_root2`] and [`quick_root3`] the whole part of a root, and
//! [`reaches_root`] compares with a root that it does not compute (`fixed_num/specs/Roots.antt`).
#![tactic(auto, using(fixed_num::proofs::Bounds::casts))]

mod cube;
mod line;
mod quotient;
mod root;
#[cfg(test)]
mod tests;

pub use cube::quick_root3;
pub use line::line_at;
pub use quotient::{inverse, nearest, quick_quo};
pub use root::{quick_root2, reaches_root};
