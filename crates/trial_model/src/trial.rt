ghost use Rattle.std.specs.Prelude.{◌≡◌, pos, Bool};
ghost use Rattle.phase_law.specs.Law.{Law};
ghost use Rattle.trial_model.specs.declared.nets.Nets.{Nets as State};
ghost use Rattle.trial_model.specs.Fits.{Fits};
ghost use Rattle.trial_model.specs.Trial.{trial, unsettled_in, share_in, SumsOf, IsLeast};

use crate::head_phase::head_phase;
use crate::link_phase::flow_phase;
use crate::nets::Nets;
use phase_law::PhaseLaw;

/// Makes one trial, and gives the number of nodes that it leaves unsettled.
///
/// Every link's share is taken from the heads and the flow of the trial before, every node's next head from
/// the sums of these shares and its head in the trial before. `first` tells the law that it is the first
/// trial of a step. It takes no memory.
///
/// Source: Reference Manual volume II, chapter 3.
pub fn trial_alone<P: PhaseLaw>(law: &P, nets: &mut Nets, first: bool) -> u32
    requires { Fits (P.law law.now) nets.old }
    ensures nets { nets.new ≡ trial (P.law law.now) nets.old first }
    ensures unsettled { result ≡ unsettled_in (P.law law.now) nets.old first }

    // What holds of the state that it leaves.
    ensures fits { Fits (P.law law.now) nets.new }
    ensures sums { SumsOf (P.law law.now) nets.new }
{
    flow_phase(law, nets, first);
    head_phase(law, nets, first)
}

/// The least time of a trial is 3,600,000 ms or the time of one of its links, and no link's time is less.
pub fn least_is_one_of_all()
    ensures { (law : Law) (s : State) (first : Bool)
        → IsLeast (pos 3_600_000) (λ l. (share_in law s first l).time) law.links (trial law s first).least }
{}
