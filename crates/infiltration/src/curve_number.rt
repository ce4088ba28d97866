// The curve number method.
ghost use Rattle.std.specs.Prelude.{◌≡◌, ◌*◌, ◌^◌, ℤ, pos, ◌+ℤ◌, ◌*ℤ◌, ◌<ℤ◌, ◌≤ℤ◌};
ghost use Rattle.fixed_num.specs.Ranges.{IsBetween, IsDryingTime};
ghost use Rattle.infiltration.specs.Depths.{IsRunoffStep};
ghost use Rattle.infiltration.specs.CurveNumber.{IsCurveNumber, IsCurveState, IsRoom, dried_room_of, dry_after};
ghost use Rattle.infiltration.specs.CurveNumber.{greatest_room_of, number_after, number_opening, number_start};
ghost use Rattle.infiltration.specs.CurveNumber.{number_taken_of, pause_after, rain_after, rain_taken_of, soaked_of};

use crate::states::CurveState;
use fixed_num::quo;

// The numbers of the method: the curve number in millionths and the drying time in ms.
#[derive(Clone, Copy, Debug)]
pub(crate) struct CurveNumber {
    pub cn6: i64,
    pub dry: i64,
}

// What the soil took in a step, in nm, and its state after it.
#[derive(Clone, Copy, Debug)]
pub(crate) struct CurveStep {
    pub taken: i64,
    pub state: CurveState,
}

// After six hours without rain the event is over, in ms.
const EVENT_GAP: i64 = 21_600_000;

// The greatest room in the soil, in nm.
fn greatest_room(cn6: i64) -> i64
    requires { IsCurveNumber cn6 }
    ensures value { result ≡ greatest_room_of cn6 }
    ensures range { IsRoom result }
{
    quo(25_400_000_000_000_000, cn6 as i128) as i64 - 254_000_000
}

// What the soil has taken once this rain of an event has fallen, in nm.
fn soaked(rain: i64, event_room: i64) -> i64
    requires rain { IsBetween (pos 0) rain (pos (3 * 10 ^ 16)) }
    requires room { IsRoom event_room }
    ensures value { result ≡ soaked_of rain event_room }
    ensures range { IsBetween (pos 0) result rain }
{
    if rain == 0 {
        return 0;
    }
    rain - quo(
        rain as i128 * rain as i128,
        rain as i128 + event_room as i128,
    ) as i64
}

// The state after a step without rain, with this room.
fn pause(state: CurveState, room: i64, ms: i64) -> CurveState
    requires dry { IsBetween (pos 0) state.dry (pos (10 ^ 16)) }
    requires time { IsRunoffStep ms }
    ensures { result ≡ pause_after state room ms }
{
    let dry = state.dry + ms;
    if dry >= EVENT_GAP {
        return CurveState {
            room,
            event_room: room,
            rain: 0,
            taken: 0,
            dry,
        };
    }
    CurveState { room, dry, ..state }
}

impl CurveNumber {
    // The state at the start of a run.
    pub(crate) fn start(&self) -> CurveState
        requires { IsCurveNumber self.now.cn6 }
        ensures { result ≡ number_start self.now.cn6 }
    {
        let room = greatest_room(self.cn6);
        CurveState {
            room,
            event_room: room,
            rain: 0,
            taken: 0,
            dry: 0,
        }
    }

    // A state of a hotstart brought into range.
    pub(crate) fn opening(&self, state: CurveState) -> CurveState
        requires number { IsCurveNumber self.now.cn6 }
        requires event_room { pos 0 ≤ℤ state.event_room }
        requires rain { IsBetween (pos 0) state.rain (pos (10 ^ 16)) }
        ensures { result ≡ number_opening self.now.cn6 state }
    {
        let greatest = greatest_room(self.cn6);
        let event_room = state.event_room.min(greatest);
        CurveState {
            room: state.room.min(greatest),
            event_room,
            rain: state.rain,
            taken: state.taken.min(soaked(state.rain, event_room)),
            dry: state.dry,
        }
    }

    // The room after a step without rain, in nm.
    fn dried_room(&self, room: i64, ms: i64) -> i64
        requires number { IsCurveNumber self.now.cn6 }
        requires drying { IsDryingTime self.now.dry }
        requires room { IsRoom room }
        requires time { IsRunoffStep ms }
        ensures { result ≡ dried_room_of self.now.cn6 self.now.dry room ms }
    {
        let greatest = greatest_room(self.cn6);
        let dried = quo(greatest as i128 * ms as i128, self.dry as i128) as i64;
        greatest.min(room + dried)
    }

    // A step with rain.
    fn rain_step(&self, state: CurveState, rain: i64, available: i64) -> CurveStep
        requires number { IsCurveNumber self.now.cn6 }
        requires state { IsCurveState (pos (10 ^ 16)) self.now.cn6 state }
        requires rain { IsBetween (pos 0) rain available }
        requires available { available ≤ℤ pos (2 * 10 ^ 16) }
        ensures taken { result.taken ≡ rain_taken_of state rain available }
        ensures state { result.state ≡ rain_after state rain available }
        ensures range { IsBetween (pos 0) result.taken available }
    {
        let fallen = state.rain + rain;
        let soaked = soaked(fallen, state.event_room);
        let taken = available.min(soaked - state.taken);
        CurveStep {
            taken,
            state: CurveState {
                room: (state.room - taken).max(0),
                event_room: state.event_room,
                rain: fallen,
                taken: soaked,
                dry: 0,
            },
        }
    }

    // A step of the method.
    pub(crate) fn step(&self, state: CurveState, rain: i64, available: i64, ms: i64) -> CurveStep
        requires number { IsCurveNumber self.now.cn6 }
        requires drying { IsDryingTime self.now.dry }
        requires state { IsCurveState (pos (10 ^ 16)) self.now.cn6 state }
        requires rain { IsBetween (pos 0) rain available }
        requires available { available ≤ℤ pos (2 * 10 ^ 16) }
        requires time { IsRunoffStep ms }
        ensures taken { result.taken ≡ number_taken_of state rain available }
        ensures state { result.state ≡ number_after self.now.cn6 self.now.dry state rain available ms }
        ensures range { IsBetween (pos 0) result.taken available }
    {
        if rain > 0 {
            return self.rain_step(state, rain, available);
        }
        let room = self.dried_room(state.room, ms);
        CurveStep {
            taken: 0,
            state: pause(state, room, ms),
        }
    }
}
