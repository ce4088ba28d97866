//! The phase machine: how any number of seats share the work of the trials of a routing step, as plain data.
//!
//! A trial has two phases. While the phase of links is open, workers claim links, load the words that a link reads, add
//! the amounts of its share to the sums of its ends, offer its time and put its flow. While the phase of nodes is open,
//! they claim nodes, load the words and the sums that a node reads, put its new head and mark it where it isn't
//! settled. The lead opens and closes the phases, and between them resets and sets words. Each act is one step on one
//! word, and the steps of all seats may come in any order.
//!
//! The words are in `specs/Places.antt`, the core of the machine and its start in `specs/Core.antt`, what an item loads
//! and makes in `specs/Items.antt`, when an act has a step and what it does in `specs/Steps.antt`.
//!
//! The contracts that matter are laws over every list of events (`specs/Runs.antt`): once the links are done
//! ([`closed_links_are_those_of_a_trial`]), the seats have finished each link once, and sums, least time and flows are
//! those of the trial of what was opened; once the nodes are done ([`closed_nodes_are_those_of_a_trial`]), the state is
//! that trial. `specs/Kept.antt` holds what is true of every core that is reached, from which both follow.
#![tactic(auto)]

mod acts;
mod laws;
mod work;

pub use acts::{Act, Event, NotNow};
pub use laws::{closed_links_are_those_of_a_trial, closed_nodes_are_those_of_a_trial};
pub use work::Work;
