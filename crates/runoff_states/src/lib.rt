//! The states of runoff of all subcatchments of a project, over the steps of a run.
//!
//! The contract that matters: [`step_all`] makes a step of each subcatchment, with the rain of its own gage at the
//! moment at which the step begins, so that the states over a run are `runoff_state` of `specs/RunoffStates.antt`:
//! those of [`start_states`] or [`open_states`], and then step after step what each becomes. What runs off to a node
//! is held between the steps ([`steps_done`], [`add_runoff`], `specs/RunoffTimes.antt`), and what became of the rain of
//! a step is its [`account`](step_account) (`specs/RunoffAccount.antt`). No step takes memory.
#![tactic(auto, using(fixed_num::proofs::Bounds::casts))]

mod account;
mod all;
mod laws;
mod nodes;
mod opening;
#[cfg(test)]
mod tests;
mod times;

pub use account::{RunoffAccount, step_account};
pub use all::step_all;
pub use laws::{runoff_is_held, runoff_loses_no_water};
pub use nodes::add_runoff;
pub use opening::{open_states, start_states};
pub use times::steps_done;
