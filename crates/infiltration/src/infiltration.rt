// Infiltration by the method of the project.
ghost use Rattle.std.specs.Prelude.{◌≡◌, ◌*◌, ◌^◌, ℤ, pos, ◌*ℤ◌, ◌≤ℤ◌};
ghost use Rattle.fixed_num.specs.Ranges.{IsBetween};
ghost use Rattle.net_types.specs.Ranges.{InfilInRange};
ghost use Rattle.infiltration.specs.Depths.{IsRunoffStep};
ghost use Rattle.infiltration.specs.Infiltration.{GrowsSlowly, HasNumbersUpTo, IsInfil, IsInfilState};
ghost use Rattle.infiltration.specs.Infiltration.{IsOfMethod, IsStateUpTo, horton_in, number_in};
ghost use Rattle.infiltration.specs.Infiltration.{opening_of, start_of, state_after, taken_of};

use crate::method::{Method, method_in};
use crate::states::{CurveState, HortonState, InfilState};
use net_types::Infil;

/// The state of infiltration at the start of a run without a hotstart.
///
/// Nothing has fallen and nothing was taken; all of the soil's room is there.
/// Source: Reference Manual volume I, chapter 4.
pub fn start_state(infil: &Infil) -> InfilState
    requires { InfilInRange infil.now }
    ensures value { result ≡ start_of infil.now }
    ensures range { IsStateUpTo (pos 0) infil.now result }
{
    match method_in(infil) {
        Method::Horton(_) => InfilState::Horton(HortonState { above: 0 }),
        Method::Number(curve) => InfilState::Number(curve.start()),
    }
}

/// The state of infiltration with which a run begins that has this state from a hotstart: brought into the ranges of
/// the infiltration.
///
/// The state is of the infiltration's method, and its numbers are 0 to 10^16; none of them gets greater.
/// Source: this project's profile.
pub fn opening_state(infil: &Infil, state: InfilState) -> InfilState
    requires infil { InfilInRange infil.now }
    requires method { IsOfMethod infil.now state }
    requires numbers { HasNumbersUpTo (pos (10 ^ 16)) state }
    ensures value { result ≡ opening_of infil.now state }
    ensures range { (most : ℤ) → HasNumbersUpTo most state → IsStateUpTo most infil.now result }
{
    match method_in(infil) {
        Method::Horton(curve) => InfilState::Horton(curve.opening(horton_in(state))),
        Method::Number(curve) => InfilState::Number(curve.opening(number_in(state))),
    }
}

/// A step of infiltration: the depth that the soil takes of the water that is available, and the state after it.
///
/// `rain` is the depth of rain in the step, which is a part of `available`, both in nm; `ms` is the length of the step.
/// The water available is at most 2·10^16 nm, and the state is one that `IsInfilState` allows. Where the rain is that
/// of a rate, the state's numbers grow by at most 2,778 a millisecond.
/// Source: Reference Manual volume I, chapter 4; the drying and the rounding are this project's profile.
pub fn infiltrate(infil: &Infil, state: &mut InfilState, rain: i64, available: i64, ms: i64) -> i64
    requires infil { IsInfil infil.now }
    requires state { IsInfilState infil.now state.old }
    requires rain { IsBetween (pos 0) rain available }
    requires available { available ≤ℤ pos (2 * 10 ^ 16) }
    requires time { IsRunoffStep ms }
    ensures taken { result ≡ taken_of infil.now state.old rain available ms }
    ensures after { state.new ≡ state_after infil.now state.old rain available ms }
    ensures range { IsBetween (pos 0) result available }
    ensures growth { rain ≤ℤ (pos 2_778 *ℤ ms) → GrowsSlowly infil.now ms state.old state.new }
{
    match method_in(infil) {
        Method::Horton(curve) => {
            let step = curve.step(horton_in(*state), available, ms);
            *state = InfilState::Horton(step.state);
            step.taken
        }
        Method::Number(curve) => {
            let step = curve.step(number_in(*state), rain, available, ms);
            *state = InfilState::Number(step.state);
            step.taken
        }
    }
}

// The state of the modified Horton method.
fn horton_in(state: InfilState) -> HortonState
    ensures { result ≡ horton_in state }
{
    match state {
        InfilState::Horton(state) => state,
        InfilState::Number(_) => HortonState { above: 0 },
    }
}

// The state of the curve number method.
fn number_in(state: InfilState) -> CurveState
    ensures { result ≡ number_in state }
{
    match state {
        InfilState::Horton(_) => CurveState {
            room: 0,
            event_room: 0,
            rain: 0,
            taken: 0,
            dry: 0,
        },
        InfilState::Number(state) => state,
    }
}
