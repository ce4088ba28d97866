ghost use Rattle.std.specs.Prelude.{◌≡◌, ℕ, ◌≤◌, IsTrue, ◌↔◌};
ghost use Rattle.phase_law.specs.Law.{Law};
ghost use Rattle.trial_model.specs.declared.nets.Nets.{Nets as State};
ghost use Rattle.trial_model.specs.declared.step.StepEnd.{StepEnd as End};
ghost use Rattle.trial_model.specs.Fits.{Fits};
ghost use Rattle.trial_model.specs.Trial.{SumsOf};
ghost use Rattle.trial_model.specs.RoutingStep.{IsEnd, end_of, trials};

use crate::nets::Nets;
use crate::trial::trial_alone;
use phase_law::PhaseLaw;

/// How a routing step ended: after how many trials, and whether all nodes were settled then.
#[derive(Clone, Copy, Debug, PartialEq, Eq)]
pub struct StepEnd {
    pub trials: u32,
    pub settled: bool,
}

/// Whether a step ends after a trial of this number, from 1, that left so many nodes unsettled.
fn ends_step(trial: u32, unsettled: u32) -> bool
    ensures { IsTrue result ↔ ((2 ≤ trial) × (unsettled ≡ 0)) }
{
    trial >= 2 && unsettled == 0
}

/// Makes the trials of one routing step.
///
/// It ends at the first trial, from the second on, that leaves no node unsettled, else after `max_trials`
/// (1 to 20). It takes no memory.
///
/// Source: Reference Manual volume II, chapter 3; the number of trials is this project's profile.
pub fn step_alone<P: PhaseLaw>(law: &P, nets: &mut Nets, max_trials: u32) -> StepEnd
    requires fits { Fits (P.law law.now) nets.old }
    requires least { 1 ≤ max_trials }
    requires most { max_trials ≤ 20 }
    ensures end { IsEnd (P.law law.now) nets.old max_trials result }
    ensures value { result ≡ end_of (P.law law.now) nets.old max_trials }
    ensures nets { nets.new ≡ trials (P.law law.now) nets.old result.trials }

    // What holds of the state that it leaves.
    ensures fits { Fits (P.law law.now) nets.new }
    ensures sums { SumsOf (P.law law.now) nets.new }
{
    for made in 0..max_trials {
        let unsettled = trial_alone(law, nets, made == 0);
        if ends_step(made + 1, unsettled) {
            return StepEnd {
                trials: made + 1,
                settled: true,
            };
        }
    }
    StepEnd {
        trials: max_trials,
        settled: false,
    }
}

/// A step has at most one end.
pub fn end_is_unique()
    ensures { (law : Law) (s : State) (most : ℕ) (a b : End) → IsEnd law s most a → IsEnd law s most b → a ≡ b }
{}

/// A step of at least one trial has an end.
pub fn step_has_an_end()
    ensures { (law : Law) (s : State) (most : ℕ) → 1 ≤ most → IsEnd law s most (end_of law s most) }
{}
