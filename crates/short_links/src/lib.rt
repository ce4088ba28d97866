//! The share of a link without length: a pump, an orifice or a weir.
//!
//! The contract that matters: [`short_share`] gives exactly the share that `specs/ShortShare.antt` defines:
//! the flow that
//! drives the link, under-relaxed, barred by a flap gate, cut to the greatest flow and barred by an end that
//! is dry. Such a
//! link has no water surface and no volume, and bounds no step.
#![tactic(auto, using(fixed_num::proofs::Bounds::casts))]

mod share;
#[cfg(test)]
mod tests;

pub use share::{ShortLink, short_share};
