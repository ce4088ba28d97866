// A step of runoff of all subcatchments of a project.
ghost use Rattle.std.specs.Prelude.{◌≡◌, ℕ, suc, ◌<◌, length, ℤ, pos, ◌+ℤ◌, ◌*ℤ◌};
ghost use Rattle.std.specs.List.{All};
ghost use Rattle.infiltration.specs.Infiltration.{IsInfil};
ghost use Rattle.net_types.specs.Ranges.{SubInRange};
ghost use Rattle.net_types.specs.Sound.{IsSound};
ghost use Rattle.rain_gages.specs.Intensity.{intensity_of};
ghost use Rattle.runoff.specs.RunoffStep.{IsSubState, StepInRange, SubGrowsSlowly, sub_state_after, sub_step_of};
ghost use Rattle.runoff.specs.Subareas.{infil_or};
ghost use Rattle.runoff.specs.declared.states.SubState.{SubState as StateOfSub};
ghost use Rattle.runoff_states.specs.RunoffAccount.{IsClosed};
ghost use Rattle.runoff_states.specs.RunoffStates.{AreStates, AreStatesUpTo, AreSubStates, HasInfiltrations, after_on};
ghost use Rattle.runoff_states.specs.RunoffStates.{moment_of, state_at, step_at as step_of_place, step_on};

use net_types::{Project, Sub};
use rain_gages::intensity;
use runoff::{SubState, SubStep, step_sub};

/// A step of runoff of all subcatchments of a project, which begins at `moment` (ms since the start of the run): what
/// the rain of the step became on each, and their states after it.
///
/// The step is as long as the options say. `states` and `steps` are as many as the subcatchments; the depths and the
/// numbers of the states are up to 10^16, and grow by at most 2,778 a millisecond. No memory is taken.
/// Source: Reference Manual volume I, chapter 3; this project's profile.
pub fn step_all(project: &Project, moment: i64, states: &mut [SubState], steps: &mut [SubStep])
    requires sound { IsSound project.now }
    requires infiltrations { HasInfiltrations project.now }
    requires states { AreSubStates project.now states.old }
    requires steps { length steps.old ≡ length project.now.subs }
    ensures states { (k : ℕ) → k < length project.now.subs
        → state_at states.new k ≡ after_on project.now moment (state_at states.old k) k }
    ensures steps { (k : ℕ) → k < length project.now.subs
        → step_of_place steps.new k ≡ step_on project.now moment (state_at states.old k) k }
    ensures run { (start : ℕ → StateOfSub) (done : ℕ) → moment ≡ moment_of project.now done
        → AreStates project.now start done states.old → AreStates project.now start (suc done) states.new }
    ensures growth { (most : ℤ) → AreStatesUpTo most project.now states.old
        → AreStatesUpTo (most +ℤ pos 2_778 *ℤ project.now.options.wet_ms) project.now states.new }
    ensures range { All StepInRange steps.new }
    ensures closed { All IsClosed steps.new }
    ensures as_many_states { length states.new ≡ length states.old }
    ensures as_many_steps { length steps.new ≡ length steps.old }
{
    let subs = project.subs.as_slice();
    for place in 0..subs.len() {
        let mut state = states[place];
        steps[place] = step_one(project, &subs[place], moment, &mut state);
        states[place] = state;
    }
}

// A step of a subcatchment, with the rain of its own gage.
fn step_one(project: &Project, sub: &Sub, moment: i64, state: &mut SubState) -> SubStep
    requires sound { IsSound project.now }
    requires range { SubInRange sub.now }
    requires infil { IsInfil (infil_or sub.now.infil) }
    requires gage { sub.now.gage < length project.now.gages }
    requires state { IsSubState sub.now state.old }
    ensures step { result
        ≡ sub_step_of sub.now state.old (intensity_of project.now sub.now.gage moment) project.now.options.wet_ms }
    ensures after { state.new
        ≡ sub_state_after sub.now state.old (intensity_of project.now sub.now.gage moment)
        project.now.options.wet_ms }
    ensures range { StepInRange result }
    ensures closed { IsClosed result }
    ensures growth { SubGrowsSlowly sub.now project.now.options.wet_ms state.old state.new }
{
    let rate = intensity(project, sub.gage, moment);
    step_sub(sub, rate, project.options.wet_ms, state)
}
