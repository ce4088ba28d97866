//! A report that goes out in pages: it takes pieces, holds them in a page of 8 KiB, and puts the page where it is full.
//!
//! [`Report::add`] answers nothing. A call of the sink that fails is the last one, and [`Report::end`], which puts
//! what is left, says once whether all went out: the whole text at `Ok`, a front of it at `Err`. What a call adds is
//! said by `Adds` (`specs/Adding.antt`), whatever the sink did. No call takes memory.
#![tactic(auto)]

mod page;
mod report;
#[cfg(test)]
mod tests;
mod told;

pub use report::Report;
