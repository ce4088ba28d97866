//! Worked examples: whole commands over memory, beside answers and reports that were worked out apart
//! from the program. What no clause can say stands here: that the calls succeed with ample memory, and that the
//! defined figures are those of the worked tables. The inputs of the folder `examples` and their reports are run by
//! `examples/run-all`.
#![tactic(auto)]

#[cfg(test)]
mod commands;
#[cfg(test)]
mod failures;
#[cfg(test)]
mod hotstarts;
#[cfg(test)]
mod lines;
#[cfg(test)]
mod reaches;
#[cfg(test)]
mod refusals;
#[cfg(test)]
mod resumes;
#[cfg(test)]
mod runs;
#[cfg(test)]
mod times;
#[cfg(test)]
mod whole_inputs;
