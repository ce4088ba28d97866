//! The outside as ports: a `Source` of bytes, a `Sink` for bytes and a `Gate` between two steps of a worker.
//!
//! A source tells what is left in it, a sink what it holds, and each counts its faults. Everything above reads and
//! writes through these traits only, so that its contracts can name the bytes, and so that every `Failed` has its
//! cause: the count of that port rose (`specs/Causes.antt`). `put_all` and `put_parts` put a whole piece or several,
//! or a front of them (`specs/Output.antt`). The ports over memory tell all that they do (`specs/Memory.antt`); the
//! ports over files are the trusted edge and tell no bytes.
#![tactic(auto)]

mod faults;
mod files;
mod memory;
mod output;
mod ports;
#[cfg(test)]
mod tests;

pub use faults::{Failed, Faults};
pub use files::{FileSink, FileSource};
pub use memory::{MemSink, MemSource};
pub use output::{put_all, put_parts};
pub use ports::{Gate, OpenGate, Sink, Source};
