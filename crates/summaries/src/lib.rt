//! What a run came to at each node and in each link: the greatest depth and the greatest flow with the moments at which
//! they were first met, the last head and the last flow, and the volume that flooded a node.
//!
//! `Summaries::add_state` takes one state of a run after another. Its contract says that, where the figures were those
//! of the first so many states (`AreSummaries` of `specs/Figures.antt`), they are now those of one state more, for any
//! sequence of states. A figure is a peak, a last value or a sum over the whole sequence (`specs/Peaks.antt`), and
//! `peaks_are_greatest` says of a peak that it is the greatest value, and of its moment that it is the first such one.
#![tactic(auto, using(fixed_num::proofs::Bounds::casts))]

mod figures;
mod link_summary;
mod node_summary;
mod outfall_summary;
mod sub_summary;

pub use figures::{Summaries, peaks_are_greatest};
pub use link_summary::LinkSummary;
pub use node_summary::NodeSummary;
pub use outfall_summary::{OutfallSummary, OutfallSums};
pub use sub_summary::{SubSummary, SubSums};
