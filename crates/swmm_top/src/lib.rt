//! The commands of the program over ports that can fail. `swmm_top` does a command; its contract is the headline of
//! the repository: where it answers, the status and the bytes that the report and the hotstart gained are those of an
//! outcome of the words and the bytes (`specs/Outcome.antt`), and `outcome_exists` and `outcome_is_unique` are the laws
//! that they have one outcome and no two; its sources were read to their ends, a port's fault is answered exactly where
//! one of its calls failed, after which no call came (`specs/Answers.antt`), and a port that the command doesn't use is
//! as it was (`specs/Uses.antt`). `run_alone_top` and `check_top` carry the same clauses for their commands and always
//! return. `file_names` gives the names that the words have (`specs/Names.antt`), and a fault's text is
//! `specs/TopFaults.antt`.
#![tactic(auto)]

mod demo;
mod fault;
mod input;
mod laws;
mod names;
mod nowhere;
mod resume;
mod run;
mod status;
mod taken;
mod task;
mod top;
mod work;

pub use fault::{Port, TopFault};
pub use laws::{outcome_exists, outcome_is_unique};
pub use names::{FileNames, file_names};
pub use resume::HOT_LIMIT;
pub use status::Status;
pub use taken::INPUT_LIMIT;
pub use top::{check_top, run_alone_top, swmm_top};
