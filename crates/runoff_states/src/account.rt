// The account of a step of runoff.
ghost use Rattle.std.specs.Prelude.{◌≡◌, ◌*◌, ◌^◌, ◌≤◌, length};
ghost use Rattle.std.specs.List.{All};
ghost use Rattle.fixed_num.specs.Ranges.{IsWithin};
ghost use Rattle.fixed_num.specs.declared.constants.TheConstants.{RECORD_LIMIT};
ghost use Rattle.runoff.specs.RunoffStep.{HasVolumesWithin, StepInRange};
ghost use Rattle.runoff_states.specs.RunoffAccount.{Balances, IsAccount, IsAccountWithin, IsClosed, error_of};

use runoff::SubStep;

/// What became of the rain on all subcatchments, in mm³: what the soil took, what ran off, what is stored on the
/// subareas more than before, and the continuity error.
#[derive(Clone, Copy, Debug, PartialEq, Eq)]
pub struct RunoffAccount {
    pub rain: i128,
    pub infil: i128,
    pub runoff: i128,
    pub stored: i128,
    pub error: i128,
}

/// The account of a step of runoff, of what the rain became on each subcatchment (up to 20,000). It balances, and its
/// error is at most 6 mm³ a subcatchment where that is so of each.
///
/// Source: this project's profile.
pub fn step_account(steps: &[SubStep]) -> RunoffAccount
    requires few { length steps.now ≤ RECORD_LIMIT }
    requires range { All StepInRange steps.now }
    ensures value { IsAccount steps.now result }
    ensures balance { Balances result }
    ensures closed { All IsClosed steps.now → IsWithin (6 * length steps.now) result.error }
    ensures range { IsAccountWithin (10 ^ 33) result }
{
    let mut sums = SubStep {
        rain: 0,
        infil: 0,
        runoff: 0,
        stored: 0,
    };
    for step in steps {
        sums = SubStep {
            rain: sums.rain + step.rain,
            infil: sums.infil + step.infil,
            runoff: sums.runoff + step.runoff,
            stored: sums.stored + step.stored,
        };
    }
    closed(&sums)
}

// The account of these sums.
fn closed(sums: &SubStep) -> RunoffAccount
    requires { HasVolumesWithin (2 * 10 ^ 32) sums.now }
    ensures rain { result.rain ≡ sums.now.rain }
    ensures infil { result.infil ≡ sums.now.infil }
    ensures runoff { result.runoff ≡ sums.now.runoff }
    ensures stored { result.stored ≡ sums.now.stored }
    ensures error { result.error ≡ error_of sums.now.rain sums.now.infil sums.now.runoff sums.now.stored }
    ensures range { IsAccountWithin (10 ^ 33) result }
{
    RunoffAccount {
        rain: sums.rain,
        infil: sums.infil,
        runoff: sums.runoff,
        stored: sums.stored,
        error: sums.rain - sums.infil - sums.runoff - sums.stored,
    }
}
