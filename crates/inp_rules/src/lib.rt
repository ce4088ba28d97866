//! Control rules: the section CONTROLS.
//!
//! [`read_rules`] reads the rules that lines give, by what is known of the whole input, and tells the faults of their
//! lines. The contract that matters: the rules are those of `specs/Rules.antt`, the faults those of
//! `specs/RuleFaults.antt`. A rule's lines are those from its RULE line to the next; which clause may follow which is
//! said by `specs/Order.antt`, and a clause out of sequence changes nothing. `rules_have_one_meaning` is the law that
//! lines without a fault are read as the rules that they mean (`specs/Meaning.antt`), and `rules_are_sound` the one
//! that those are good for use.
//!
//! Below it: which clause a line is, its first word says ([`clause_in`]); [`read_test`] reads the test of a clause,
//! [`read_action`] its action and [`read_priority`] a rule's priority, each or the clause's one fault
//! (`specs/Tests.antt`, `specs/Actions.antt`).
#![tactic(auto)]

mod actions;
mod clauses;
mod conditions;
mod faults;
mod groups;
mod laws;
mod order;
mod priority;
mod roles;
mod rule_lines;
mod rules;
#[cfg(test)]
mod tests;
mod values;
mod words;

pub use actions::read_action;
pub use clauses::{Clause, clause_in};
pub use conditions::read_test;
pub use laws::{rule_faults_are_of_lines, rules_are_few, rules_are_sound, rules_have_one_meaning};
pub use order::{RulePart, next_part, part_after};
pub use priority::read_priority;
pub use rules::read_rules;
