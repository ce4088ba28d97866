// The runoff of the subcatchments over a run.
ghost use Rattle.std.specs.Prelude.{◌≡◌, ℕ, suc, ◌^◌, ◌<◌, length, map, IfOk, IfSome};
ghost use Rattle.std.specs.Prelude.{ℤ, pos, neg_ℤ, ◌+ℤ◌, ◌≤ℤ◌, int_le};
ghost use Rattle.std.specs.List.{All};
ghost use Rattle.fixed_num.specs.Lists.{number};
ghost use Rattle.fixed_num.specs.Ranges.{IsBetween, IsWithin, cut_of};
ghost use Rattle.project_check.specs.Faultless.{IsFaultless};
ghost use Rattle.runoff.specs.RunoffStep.{StepInRange};
ghost use Rattle.runoff_states.specs.RunoffStates.{AreStates, AreStatesUpTo, AreSubStates, opening_state};
ghost use Rattle.runoff_states.specs.RunoffTimes.{AreDone, runoff_at};
ghost use Rattle.run_engine.specs.Hot.{IsHotFor};
ghost use Rattle.run_engine.specs.Laterals.{IsRunoffAfter, TellsStep, runoff_start, state_in};

use crate::start::Start;
use hotstart::{HotState, HotSub};
use net_types::{List, OutOfMemory, Project};
use runoff::{SubState, SubStep};
use runoff_states::{add_runoff, open_states, start_states, step_all};
use std::alloc::Global;

// The states of all subcatchments after so many steps of runoff, what became of the rain of the last of these steps,
// and the moment at which the next one begins (ms since the start of the run).
#[derive(Debug, Drop)]
pub(crate) struct SubRunoff {
    pub(crate) states: List<SubState>,
    pub(crate) steps: List<SubStep>,
    pub(crate) begin: i64,
}

// The runoff with which a run begins.
pub(crate) fn open_runoff(alloc: Global, start: &Start) -> Result<SubRunoff, OutOfMemory>
    requires project { IsFaultless start.now.project }
    requires hot { IfSome start.now.hot (IsHotFor start.now.project) }
    ensures { IfOk result (λ made. IsRunoffAfter start.now 0 made) }
{
    let states = first_states(alloc, start)?;
    let steps = no_steps(alloc, start.project.subs.as_slice().len())?;
    Ok(SubRunoff {
        states,
        steps,
        begin: 0,
    })
}

// The states of the subcatchments with which a run begins.
fn first_states(alloc: Global, start: &Start) -> Result<List<SubState>, OutOfMemory>
    requires project { IsFaultless start.now.project }
    requires hot { IfSome start.now.hot (IsHotFor start.now.project) }
    ensures states { IfOk result (λ made. AreStates start.now.project (runoff_start start.now) 0 made) }
    ensures range { IfOk result (λ made. AreStatesUpTo (pos (10 ^ 15)) start.now.project made) }
{
    match &start.hot {
        Some(hot) => resumed_states(alloc, &start.project, hot),
        None => start_states(alloc, &start.project),
    }
}

// The states of the subcatchments in a hotstart, brought into the ranges of their infiltration.
fn resumed_states(
    alloc: Global,
    project: &Project,
    hot: &HotState,
) -> Result<List<SubState>, OutOfMemory>
    requires project { IsFaultless project.now }
    requires hot { IsHotFor project.now hot.now }
    ensures states { IfOk result
        (λ made. AreStates project.now (opening_state project.now (map state_in hot.now.subs)) 0 made) }
    ensures range { IfOk result (λ made. AreStatesUpTo (pos (10 ^ 15)) project.now made) }
{
    let mut states = kept_states(alloc, hot.subs.as_slice())?;
    open_states(project, states.as_mut_slice());
    Ok(states)
}

// The states of the subcatchments in a hotstart.
fn kept_states(alloc: Global, subs: &[HotSub]) -> Result<List<SubState>, OutOfMemory>
    ensures { IfOk result (λ made. made ≡ map state_in subs.now) }
{
    let mut states = List::new(alloc);
    for sub in subs {
        states.push(SubState {
            depths: sub.depths,
            infil: sub.infil,
            flow: sub.flow,
        })?;
    }
    Ok(states)
}

// So many steps of which all volumes are 0.
fn no_steps(alloc: Global, count: usize) -> Result<List<SubStep>, OutOfMemory>
    ensures { IfOk result (λ made. length made ≡ count) }
{
    let mut steps = List::new(alloc);
    for _ in 0..count {
        steps.push(SubStep {
            rain: 0,
            infil: 0,
            runoff: 0,
            stored: 0,
        })?;
    }
    Ok(steps)
}

// Whether a step ends at or before a moment, in ms since the start of the run.
pub(crate) fn is_due(project: &Project, begin: i64, moment: i64) -> bool
    requires project { IsFaultless project.now }
    requires moment { moment ≤ℤ pos 316_224_000_000 }
    requires begun { IsBetween (pos 0) begin moment }
    ensures { result ≡ int_le (begin +ℤ project.now.options.wet_ms) moment }
{
    begin + project.options.wet_ms <= moment
}

// Makes the next step of all subcatchments.
pub(crate) fn step_runoff(start: &Start, runoff: &mut SubRunoff)
    requires project { IsFaultless start.now.project }
    requires begin { IsBetween (pos 0) runoff.old.begin (pos 316_224_000_000) }
    requires states { AreSubStates start.now.project runoff.old.states }
    requires places { length runoff.old.steps ≡ length start.now.project.subs }
    ensures run { (steps : ℕ) → IsRunoffAfter start.now steps runoff.old
        → IsRunoffAfter start.now (suc steps) runoff.new }
    ensures told { (steps : ℕ) → IsRunoffAfter start.now steps runoff.old → TellsStep start.now steps runoff.new }
    ensures range { All StepInRange runoff.new.steps }
{
    step_all(
        &start.project,
        runoff.begin,
        runoff.states.as_mut_slice(),
        runoff.steps.as_mut_slice(),
    );
    runoff.begin += start.project.options.wet_ms;
}

// Adds to the lateral inflow of each node (cm³/s) what runs off to it at a moment at which all steps are done that end
// by then, and brings the sum into 10^12 to either side.
pub(crate) fn add_laterals(start: &Start, runoff: &SubRunoff, laterals: &mut [i128])
    requires project { IsFaultless start.now.project }
    requires states { AreSubStates start.now.project runoff.now.states }
    requires places { length laterals.old ≡ length start.now.project.nodes }
    requires small { (n : ℕ) → n < length start.now.project.nodes → IsWithin (10 ^ 12) (number laterals.old n) }
    ensures places { length laterals.new ≡ length laterals.old }
    ensures sums { (moment : ℤ) (steps : ℕ) → IsRunoffAfter start.now steps runoff.now
        → AreDone start.now.project.options.wet_ms moment steps → (n : ℕ) → n < length start.now.project.nodes
        → number laterals.new n
        ≡ cut_of (number laterals.old n +ℤ runoff_at start.now.project (runoff_start start.now) moment n)
        (neg_ℤ (pos (10 ^ 12))) (pos (10 ^ 12)) }
{
    add_runoff(&start.project, runoff.states.as_slice(), laterals);
}
