// The modified Horton method.
ghost use Rattle.std.specs.Prelude.{◌≡◌, ◌*◌, ◌^◌, ℤ, pos, ◌+ℤ◌, ◌*ℤ◌, ◌<ℤ◌, ◌≤ℤ◌};
ghost use Rattle.fixed_num.specs.Ranges.{IsBetween};
ghost use Rattle.infiltration.specs.Depths.{IsRunoffStep};
ghost use Rattle.infiltration.specs.Horton.{IsHortonCurve, IsHortonState, dry_above_of, horton_after, horton_opening};
ghost use Rattle.infiltration.specs.Horton.{horton_taken_of, rate_of, within_volume_of, wet_above_of, wet_taken_of};

use crate::depths::depth_over;
use crate::states::HortonState;
use fixed_num::{cut, quo};

// The numbers of the method: rates in nm/h, the decay in millionths of 1/h, the drying time in ms and the volume in nm,
// of which 0 is no limit.
#[derive(Clone, Copy, Debug)]
pub(crate) struct HortonCurve {
    pub max: i64,
    pub min: i64,
    pub decay6: i64,
    pub dry: i64,
    pub volume: i64,
}

// What the soil took in a step, in nm, and its state after it.
#[derive(Clone, Copy, Debug)]
pub(crate) struct HortonStep {
    pub taken: i64,
    pub state: HortonState,
}

impl HortonCurve {
    // The rate that the soil takes, in nm/h.
    fn rate(&self, above: i64) -> i64
        requires curve { IsHortonCurve self.now }
        requires above { IsBetween (pos 0) above (pos (10 ^ 16)) }
        ensures value { result ≡ rate_of self.now above }
        ensures range { IsBetween self.now.min result self.now.max }
    {
        let fall = quo(self.decay6 as i128 * above as i128, 1_000_000);
        cut(self.max as i128 - fall, self.min as i128, self.max as i128) as i64
    }

    // The depth that the soil can take at most, where `most` is what its rate takes, in nm.
    fn within_volume(&self, above: i64, most: i64, ms: i64) -> i64
        requires curve { IsHortonCurve self.now }
        requires above { IsBetween (pos 0) above (pos (10 ^ 16)) }
        requires held { pos 0 <ℤ self.now.volume → above ≤ℤ self.now.volume }
        requires most { IsBetween (pos 0) most (pos (10 ^ 10)) }
        requires time { IsRunoffStep ms }
        ensures value { result ≡ within_volume_of self.now above most ms }
        ensures range { IsBetween (pos 0) result most }
    {
        if self.volume > 0 {
            return most.min(depth_over(self.min, ms) + self.volume - above);
        }
        most
    }

    // What the soil takes of the water that is there, in nm.
    fn wet_taken(&self, above: i64, available: i64, ms: i64) -> i64
        requires curve { IsHortonCurve self.now }
        requires above { IsBetween (pos 0) above (pos (10 ^ 16)) }
        requires held { pos 0 <ℤ self.now.volume → above ≤ℤ self.now.volume }
        requires available { IsBetween (pos 0) available (pos (2 * 10 ^ 16)) }
        requires time { IsRunoffStep ms }
        ensures value { result ≡ wet_taken_of self.now above available ms }
        ensures range { IsBetween (pos 0) result available }
        ensures small { result ≤ℤ pos (10 ^ 10) }
    {
        let most = available.min(depth_over(self.rate(above), ms));
        self.within_volume(above, most, ms)
    }

    // What was taken above what the least rate takes, after a step with water, in nm.
    fn wet_above(&self, above: i64, taken: i64, ms: i64) -> i64
        requires curve { IsHortonCurve self.now }
        requires above { IsBetween (pos 0) above (pos (10 ^ 16)) }
        requires taken { IsBetween (pos 0) taken (pos (10 ^ 10)) }
        requires time { IsRunoffStep ms }
        ensures { result ≡ wet_above_of self.now above taken ms }
    {
        above + (taken - depth_over(self.min, ms)).max(0)
    }

    // The same after a step without water, in nm.
    fn dry_above(&self, above: i64, ms: i64) -> i64
        requires curve { IsHortonCurve self.now }
        requires above { IsBetween (pos 0) above (pos (10 ^ 16)) }
        requires time { IsRunoffStep ms }
        ensures { result ≡ dry_above_of self.now above ms }
    {
        let dried = quo(4 * above as i128 * ms as i128, self.dry as i128);
        above - (above as i128).min(dried) as i64
    }

    // A step of the method.
    pub(crate) fn step(&self, state: HortonState, available: i64, ms: i64) -> HortonStep
        requires curve { IsHortonCurve self.now }
        requires state { IsHortonState (pos (10 ^ 16)) self.now state }
        requires available { IsBetween (pos 0) available (pos (2 * 10 ^ 16)) }
        requires time { IsRunoffStep ms }
        ensures taken { result.taken ≡ horton_taken_of self.now state available ms }
        ensures state { result.state ≡ horton_after self.now state available ms }
        ensures range { IsBetween (pos 0) result.taken available }
    {
        if available > 0 {
            let taken = self.wet_taken(state.above, available, ms);
            let above = self.wet_above(state.above, taken, ms);
            return HortonStep {
                taken,
                state: HortonState { above },
            };
        }
        let above = self.dry_above(state.above, ms);
        HortonStep {
            taken: 0,
            state: HortonState { above },
        }
    }

    // A state of a hotstart brought into the volume.
    pub(crate) fn opening(&self, state: HortonState) -> HortonState
        ensures { result ≡ horton_opening self.now state }
    {
        if self.volume > 0 {
            return HortonState {
                above: state.above.min(self.volume),
            };
        }
        state
    }
}
