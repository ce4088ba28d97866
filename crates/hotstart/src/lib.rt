//! The hotstart file: a state of a run as bytes, from which a later run goes on.
//!
//! [`write_hot`] puts the bytes of a state (`specs/HotBytes`), [`read_hot`] reads them for a project. Of a file
//! that isn't one for the project it tells the first fault, in the order of the bytes (`specs/Layout`); else
//! the state in it (`specs/Reading`). Version 2 is written; versions 1 and 2 are read. Which states can be
//! written stands in `specs/HotRanges`; that a written file is read back, that each good file is the bytes of its
//! state, and how version 1 is read, are laws over `specs/WrittenBack`.
#![tactic(auto)]

mod checks;
mod columns;
mod laws;
mod read;
mod refusal;
mod shape;
mod state;
#[cfg(test)]
mod tests;
mod write;

pub use laws::{
    bytes_have_one_state, good_file_is_written, old_file_is_migrated, written_is_read_back,
};
pub use read::{HotRead, read_hot};
pub use state::{HotState, HotSub};
pub use write::write_hot;
