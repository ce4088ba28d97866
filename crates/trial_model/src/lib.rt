//! Trials and routing steps by one worker: the state of a network, one trial of it, and the successive
//! trials of a routing step, over any [`phase_law::PhaseLaw`].
//!
//! A trial asks the law for every link's share from the heads of the trial before, sums the shares at the
//! nodes, and asks for every node's next head from these sums. A step repeats trials until all nodes are
//! settled.
//!
//! The contracts that matter: [`trial_alone`] leaves `trial` of the state and gives its count of unsettled
//! nodes (`specs/Trial.antt`), and [`step_alone`] ends where `IsEnd` says, which fits one end only
//! (`specs/RoutingStep.antt`). Both leave a state that fits the law again (`specs/Fits.antt`). [`sum_flows`]
//! makes the inflows and outflows of a state the sums over its own flows, for the state before the first step.
#![tactic(auto)]

mod flow_sums;
mod head_phase;
mod link_phase;
mod nets;
mod step;
mod sums;
#[cfg(test)]
mod tests;
mod trial;

pub use flow_sums::sum_flows;
pub use nets::Nets;
pub use step::{StepEnd, end_is_unique, step_alone, step_has_an_end};
pub use trial::{least_is_one_of_all, trial_alone};
