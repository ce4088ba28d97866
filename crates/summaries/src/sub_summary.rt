// The summaries of subcatchments.
ghost use Rattle.std.specs.Prelude.{◌≡◌, ℕ, ◌+◌, ◌*◌, ◌^◌, ◌<◌, ◌≤◌, List as Sequence, length, replicate, IfOk};
ghost use Rattle.std.specs.List.{All};
ghost use Rattle.runoff.specs.RunoffStep.{HasVolumesWithin, StepInRange};
ghost use Rattle.runoff.specs.declared.states.SubState.{SubState as StateOf};
ghost use Rattle.runoff.specs.declared.states.SubStep.{SubStep as StepOf};
ghost use Rattle.summaries.specs.Runoffs.{AreRunoffs, AreSmall, HaveSmallSums, IsRunoffWithin, IsTotal, flow_at};
ghost use Rattle.summaries.specs.Runoffs.{no_runoff, no_runoffs, summary_at, volumes_at, with_step};

use net_types::{List, OutOfMemory, Project};
use runoff::{SubState, SubStep};
use std::alloc::Global;
use std::marker::Model;

/// What the rain of a run became on a subcatchment: the volumes of rain, infiltration and runoff, and the change of the
/// stored volume, in mm³, and the greatest flow of all runoff steps, in cm³/s.
#[derive(Clone, Copy, Debug, PartialEq, Eq)]
pub struct SubSummary {
    pub rain: i128,
    pub infil: i128,
    pub runoff: i128,
    pub stored: i128,
    pub peak: i64,
}

/// The summaries of all subcatchments over the runoff steps that were added, at most 400,000,000.
#[derive(Debug, Drop)]
pub struct SubSums {
    subs: List<SubSummary>,
    steps: u64,
}

impl Model for SubSums {
    ghost use Rattle.summaries.specs.Runoffs.{Runoffs};

    ghost Value = { Runoffs };

    ghost view = { λ s. record { subs = s.subs; steps = s.steps } };
}

impl SubSums {
    /// The summaries of no step, for the subcatchments of a project. The only error is want of memory.
    pub fn with_room(alloc: Global, project: &Project) -> Result<SubSums, OutOfMemory>
        ensures value { IfOk result (λ sums. sums ≡ no_runoffs project.now) }
        ensures small { IfOk result AreSmall }
    {
        let count = project.subs.as_slice().len();
        Ok(SubSums {
            subs: new_subs(alloc, count)?,
            steps: 0,
        })
    }

    /// Takes one runoff step more: what the rain of it became on each subcatchment, and their states after it.
    ///
    /// Source: this project's profile.
    pub fn add_runoff(&mut self, steps: &[SubStep], states: &[SubState])
        requires few { self.old.steps < 400_000_000 }
        requires small { AreSmall self.old }
        requires steps { length steps.now ≡ length self.old.subs }
        requires states { length states.now ≡ length self.old.subs }
        requires steps_in { All StepInRange steps.now }
        ensures summaries { (made : ℕ → Sequence StepOf) (after : ℕ → Sequence StateOf) → AreRunoffs made after self.old
            → made self.old.steps ≡ steps.now → after self.old.steps ≡ states.now → AreRunoffs made after self.new }
        ensures small { AreSmall self.new }
        ensures steps { self.new.steps ≡ self.old.steps + 1 }
        ensures subs { length self.new.subs ≡ length self.old.subs }
    {
        let subs = self.subs.as_mut_slice();
        add_steps(subs, steps, states);
        self.steps += 1;
    }

    /// The summaries of the subcatchments, in the order of the project.
    pub fn subs(&self) -> &List<SubSummary>
        ensures { result.now ≡ self.now.subs }
    {
        &self.subs
    }

    /// The sums of the volumes of all subcatchments, in mm³, each of at most 10^37 without signs.
    pub fn total(&self) -> SubStep
        requires { HaveSmallSums self.now.subs }
        ensures total { IsTotal self.now.subs result }
        ensures range { HasVolumesWithin (10 ^ 37) result }
    {
        total_of(self.subs.as_slice())
    }
}

// A summary with one step more.
fn with_more(summary: &SubSummary, step: &SubStep, flow: i64) -> SubSummary
    requires summary { IsRunoffWithin (10 ^ 37) summary.now }
    requires step { StepInRange step.now }
    ensures { result ≡ with_step summary.now step.now flow }
{
    SubSummary {
        rain: summary.rain + step.rain,
        infil: summary.infil + step.infil,
        runoff: summary.runoff + step.runoff,
        stored: summary.stored + step.stored,
        peak: summary.peak.max(flow),
    }
}

// Takes one step more into every summary.
fn add_steps(subs: &mut [SubSummary], steps: &[SubStep], states: &[SubState])
    requires steps { length steps.now ≡ length subs.old }
    requires states { length states.now ≡ length subs.old }
    requires steps_in { All StepInRange steps.now }
    requires small { (k : ℕ) → IsRunoffWithin (10 ^ 37) (summary_at subs.old k) }
    ensures count { length subs.new ≡ length subs.old }
    ensures each { (k : ℕ) → k < length subs.old → summary_at subs.new k
        ≡ with_step (summary_at subs.old k) (volumes_at steps.now k) (flow_at states.now k) }
{
    for k in 0..subs.len() {
        subs[k] = with_more(&subs[k], &steps[k], states[k].flow);
    }
}

// The sums of the volumes of all summaries.
fn total_of(subs: &[SubSummary]) -> SubStep
    requires { HaveSmallSums subs.now }
    ensures total { IsTotal subs.now result }
    ensures range { HasVolumesWithin (10 ^ 37) result }
{
    let mut sums = SubStep {
        rain: 0,
        infil: 0,
        runoff: 0,
        stored: 0,
    };
    for sub in subs {
        sums = SubStep {
            rain: sums.rain + sub.rain,
            infil: sums.infil + sub.infil,
            runoff: sums.runoff + sub.runoff,
            stored: sums.stored + sub.stored,
        };
    }
    sums
}

// So many summaries of no step.
fn new_subs(alloc: Global, count: usize) -> Result<List<SubSummary>, OutOfMemory>
    ensures { IfOk result (λ list. list ≡ replicate count no_runoff) }
{
    let mut list = List::new(alloc);
    for _ in 0..count {
        list.push(SubSummary {
            rain: 0,
            infil: 0,
            runoff: 0,
            stored: 0,
            peak: 0,
        })?;
    }
    Ok(list)
}
