//! The texts that the program writes: each call puts a part of a report, or a whole one, into a sink. The text that
//! a call puts is a definition of `specs/`; at `Failed`, which comes only where the sink's count of faults rose, a
//! front of it was put. No call takes memory.
//!
//! A put call makes a [`report_port::Report`], adds its text to it piece by piece and ends it, so that the text goes
//! out in pages of 8 KiB. An add call adds to a report that its caller makes and ends.
//!
//! A refused input has one of the reports of `specs/FaultReports`, a refused hotstart that of `specs/HotRefusal`, an
//! accepted input that is not run that of `specs/AcceptedReport`, and a sample that of `specs/DemoReport`. The report of
//! a run is its head (`specs/RunReport`), its step lines (`specs/StepLines`) and all figures (`specs/WholeTail`).
#![tactic(auto, using(fixed_num::proofs::Bounds::casts))]

mod accepted;
mod counts;
mod dates;
mod demo;
mod faults;
mod head;
mod hot_refusal;
mod numbers;
mod steps;
mod tables;
#[cfg(test)]
mod tests;
mod totals;
mod whole_tail;

pub use accepted::put_accepted;
pub use counts::RunCounts;
pub use demo::put_demo;
pub use fault_ports::put_all;
pub use faults::{empty_input_report, put_input_too_long, put_line_faults, put_project_faults};
pub use head::{add_head, put_head};
pub use hot_refusal::put_hot_refusal;
pub use steps::{add_step_line, add_steps_heading, put_step_line};
pub use whole_tail::{RunFigures, put_whole_tail};
