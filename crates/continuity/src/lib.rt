//! The flow routing account of each step and of a run: what came in, what left at outfalls, what flooded, what
//! is stored, and the continuity error.
//!
//! `account_step` computes the account of `specs/Account.antt` from the states before and after a step, and its
//! contract says that it balances: inflow less outfall less flooding is storage plus error, exactly. That is no
//! definition of the error, which is a sum over nodes and links: it holds because a link's flow leaves one node
//! and enters another. `RunAccount` sums the accounts of steps, field by field, and balances too. `find_floods`
//! gives the flood of each node.
#![tactic(auto, using(fixed_num::proofs::Bounds::casts))]

mod floods;
mod link_part;
mod node_part;
mod run;
mod step;
mod sum;
#[cfg(test)]
mod tests;

pub use floods::find_floods;
pub use run::RunAccount;
pub use step::account_step;
