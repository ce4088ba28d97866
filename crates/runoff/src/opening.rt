// The states with which a run begins.
ghost use Rattle.std.specs.Prelude.{◌≡◌, ◌^◌, ℤ, pos};
ghost use Rattle.net_types.specs.Ranges.{SubInRange};
ghost use Rattle.runoff.specs.RunoffStep.{IsKeptState, IsSubStateUpTo, opening_of_sub, start_of_sub};

use crate::states::SubState;
use crate::subareas::infil_in;
use infiltration::{opening_state, start_state};
use net_types::Sub;

/// The state of a subcatchment at the start of a run without a hotstart: nothing stands on it, and nothing flows.
///
/// Source: this project's profile.
pub fn start_sub(sub: &Sub) -> SubState
    requires { SubInRange sub.now }
    ensures value { result ≡ start_of_sub sub.now }
    ensures range { IsSubStateUpTo (pos 0) sub.now result }
{
    SubState {
        depths: [0, 0, 0],
        infil: start_state(&infil_in(sub)),
        flow: 0,
    }
}

/// The state of a subcatchment with which a run begins that has this state from a hotstart: its infiltration
/// is brought into
/// the ranges of the subcatchment's.
///
/// The depths and the numbers of infiltration are 0 to 10^16, and none of them gets greater.
/// Source: this project's profile.
pub fn opening_sub(sub: &Sub, state: &SubState) -> SubState
    requires sub { SubInRange sub.now }
    requires state { IsKeptState (pos (10 ^ 16)) sub.now state.now }
    ensures value { result ≡ opening_of_sub sub.now state.now }
    ensures range { (most : ℤ) → IsKeptState most sub.now state.now → IsSubStateUpTo most sub.now result }
{
    SubState {
        depths: state.depths,
        infil: opening_state(&infil_in(sub), state.infil),
        flow: state.flow,
    }
}
