//! The run of a project by one worker: its opening state, its routing steps, and its report.
//!
//! The state sequence of a run is a recursion over the number of steps (`specs/States.antt`): a state is made
//! ready with the length of the step and the lateral inflows and stages at its finish, and the successive trials of the
//! step give the next one. A step has the length of the options, or a part of the time that a wave takes through the
//! quickest conduit (`specs/Times.antt`). What a run comes to is said over the list of all its states
//! (`specs/Results.antt`, `specs/Report.antt`). The code keeps one state, the one before it, and running totals.
//!
//! A run begins with a project, or with a project and the state of a hotstart ([`Start`]); the last state is kept for
//! another hotstart (`specs/Hot.antt`).
//!
//! The contracts that matter: [`open_run`] gives a run at state 0, [`Run::advance_alone`] puts the head of the report,
//! leaves the run at the last state (`IsAt` of `specs/Progress.antt`) and puts the step lines on the way
//! (`specs/StepLines.antt`), and [`Run::finish`] puts the figures: together `report_of` what it began with.
//! [`Run::hot_state`] gives the last state for a hotstart. What a run keeps between two steps, and so what always holds
//! of a [`Run`], stands in `specs/Kept.antt`.
#![tactic(auto, using(fixed_num::proofs::Bounds::casts))]

mod begin;
mod hot;
mod kept;
mod laterals;
mod laws;
mod one_step;
mod opening;
mod output;
mod prepare;
mod run;
mod settings;
mod start;
mod step;
mod subs;
mod times;

pub use laws::lines_stand_at_reports;
pub use run::{Run, open_run};
pub use start::Start;
