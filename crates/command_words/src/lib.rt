//! The words of the command line, and the command that they are.
//!
//! ```text
//! run INP RPT [--threads N] [--hot-in F] [--hot-out F]
//! check INP RPT
//! demo N RPT [--threads N]
//! ```
//!
//! `read_words` reads the words after the program's name and answers the command that they are, or None where they are
//! none. Its contract is exact both ways: the answer is `command_of` of the words (`specs/CommandWords.antt`), whatever
//! the words are, or want of memory. The words are read as one simple command of `clap` with three required places and
//! three options (`specs/Words.antt` says in plain terms what `clap` makes of them); the modes, names and numbers are
//! checked afterwards.
#![tactic(auto)]

mod command;
mod line;
mod modes;
mod read;
#[cfg(test)]
mod tests;
mod values;

pub use command::{Command, Task};
pub use read::read_words;
