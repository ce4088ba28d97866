// Which steps of runoff are done at a moment.
ghost use Rattle.std.specs.Prelude.{◌≡◌, ℤ, pos, ◌≤ℤ◌};
ghost use Rattle.infiltration.specs.Depths.{IsRunoffStep};
ghost use Rattle.runoff_states.specs.RunoffTimes.{AreDone, steps_done as done_of};

/// How many steps of runoff of `ms` milliseconds (1,000 to 3,600,000) are done at a moment of a run (ms since its
/// start, not negative): those that ended at or before it.
///
/// Source: this project's profile.
pub fn steps_done(ms: i64, moment: i64) -> u64
    requires time { IsRunoffStep ms }
    requires moment { pos 0 ≤ℤ moment }
    ensures done { AreDone ms moment result }
    ensures value { result ≡ done_of ms moment }
{
    moment.unsigned_abs() / ms.unsigned_abs()
}
