ghost use Rattle.std.specs.Prelude.{◌≡◌, ◌^◌};
ghost use Rattle.fixed_num.specs.Ranges.{IsWithin};
ghost use Rattle.fixed_num.specs.Relaxation.{relaxed_of};

use crate::quo;

/// The value of a trial: the new one in the first trial of a step, afterwards the mean of the last trial's and the new
/// one, rounded once.
///
/// `last` and `new` are numbers of the same unit, `new` at most 10^36 either way.
/// Source: Reference Manual volume II, chapter 3 (under-relaxation by one half).
#[tactic(auto, using(crate::proofs::Bounds::casts), unfolding(crate::specs::Relaxation::relaxed_of))]
pub fn relaxed(first: bool, last: i64, new: i128) -> i128
    requires { IsWithin (10 ^ 36) new }
    ensures { result ≡ relaxed_of first last new }
{
    if first {
        return new;
    }
    quo(last as i128 + new, 2)
}
