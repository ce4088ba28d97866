// The states of all subcatchments with which a run begins.
ghost use Rattle.std.specs.Prelude.{◌≡◌, ℕ, ◌^◌, ◌<◌, length, IfOk, ℤ, pos};
ghost use Rattle.net_types.specs.Sound.{IsSound};
ghost use Rattle.runoff_states.specs.RunoffStates.{AreKeptStates, AreStates, AreStatesUpTo, opening_state, start_state};

use net_types::{List, OutOfMemory, Project};
use runoff::{SubState, opening_sub, start_sub};
use std::alloc::Global;

/// The states of all subcatchments at the start of a run without a hotstart: nothing stands on them, and nothing flows.
///
/// `Err` comes only where memory runs out. Source: this project's profile.
pub fn start_states(alloc: Global, project: &Project) -> Result<List<SubState>, OutOfMemory>
    requires { IsSound project.now }
    ensures states { IfOk result (λ made. AreStates project.now (start_state project.now) 0 made) }
    ensures range { IfOk result (λ made. AreStatesUpTo (pos 0) project.now made) }
{
    let mut states = List::new(alloc);
    for sub in project.subs.as_slice() {
        states.push(start_sub(sub))?;
    }
    Ok(states)
}

/// The states with which a run begins that has these of a hotstart: the infiltration of each is brought into the ranges
/// of its subcatchment's. The depths and the numbers of infiltration are 0 to 10^16, and none of them gets greater.
///
/// No memory is taken. Source: this project's profile.
pub fn open_states(project: &Project, states: &mut [SubState])
    requires sound { IsSound project.now }
    requires kept { AreKeptStates (pos (10 ^ 16)) project.now states.old }
    ensures states { AreStates project.now (opening_state project.now states.old) 0 states.new }
    ensures range { (most : ℤ) → AreKeptStates most project.now states.old
        → AreStatesUpTo most project.now states.new }
{
    let subs = project.subs.as_slice();
    for place in 0..subs.len() {
        let kept = states[place];
        states[place] = opening_sub(&subs[place], &kept);
    }
}
