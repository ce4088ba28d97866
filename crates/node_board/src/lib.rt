//! The board on which threads share the work of trials: words that change in single atomic steps.
//!
//! A board is a table of `atomic_table` whose words stand for the numbers of the phase machine (`specs/Coding.antt`).
//! Each seat knows what it does; the lead also knows what was opened and, while no phase is open, all words
//! (`src/views.rt`). The rule of the board (`specs/Rule.antt`) says what holds between any two steps: words and views
//! show a core that events of the phase machine reach from its start, so its laws hold of the board. Boards are opened
//! by the rule, and each kind of atomic step keeps it, in any order ([`workers_keep_the_rule`],
//! [`leads_keep_the_rule`]).
//!
//! [`Board::open`] gives a board and its lead, [`Board::split`] a seat of a worker. Workers call [`Board::claim`]; of a
//! link [`Board::load_link`], the four adds, [`Board::offer_time`], [`Board::put_flow`]; of a node
//! [`Board::load_node`], [`Board::put_head`] and, where it isn't settled, [`Board::mark_unsettled`]; then
//! [`Board::done`] (`specs/Claims.antt`, `Acts`). While no phase is open, the lead sets what the next trial reads,
//! opens a phase, reads or stops; [`Board::close`] closes a phase once all its items are done (`specs/Known.antt`).
//! From one opening of links to the close of its nodes, that is the trial that one worker makes
//! ([`closed_phases_are_those_of_a_trial`]).
#![tactic(auto)]

mod board;
mod claims;
mod closes;
mod inputs;
mod items;
mod laws;
mod lead;
mod links;
mod loads;
mod nodes;
mod opens;
mod places;
mod plays;
mod reads;
mod resets;
mod rule;
mod sets;
#[cfg(test)]
mod tests;
mod views;
mod words;

pub use board::{Board, Lead, Seat};
pub use claims::Claim;
pub use closes::{Closed, Pending};
pub use inputs::{LinkInput, NodeInput, Sums};
pub use laws::{
    boards_open_by_the_rule, closed_phases_are_those_of_a_trial, leads_keep_the_rule,
    workers_keep_the_rule,
};
pub use resets::stopped;
pub use views::{Plan, Role, View};
