// What comes to the nodes from outside.
ghost use Rattle.std.specs.Prelude.{◌≡◌, length, ℤ, pos, ◌≤ℤ◌};
ghost use Rattle.fixed_num.specs.Ranges.{IsBetween};
ghost use Rattle.run_engine.specs.Kept.{AreRunoffsOf};
ghost use Rattle.run_engine.specs.Laterals.{IsRunoffAt, laterals_at};
ghost use Rattle.project_check.specs.Faultless.{IsFaultless};
ghost use Rattle.runoff_states.specs.RunoffTimes.{steps_done};
ghost use Rattle.time_series.specs.LateralFlow.{IsRunMoment};

use crate::start::Start;
use crate::subs::{SubRunoff, add_laterals, is_due, step_runoff};
use summaries::SubSums;
use time_series::lateral_flows;

// Makes all steps of runoff that are done at a moment, in ms since the start of the run, and adds them to the
// summaries: those of an earlier moment are.
pub(crate) fn advance_runoff(start: &Start, moment: i64, runoff: &mut SubRunoff, subs: &mut SubSums)
    requires project { IsFaultless start.now.project }
    requires moment { moment ≤ℤ pos 316_224_000_000 }
    requires earlier { (earlier : ℤ) × IsBetween (pos 0) earlier moment × IsRunoffAt start.now earlier runoff.old
        × AreRunoffsOf start.now (steps_done start.now.project.options.wet_ms earlier) subs.old }
    ensures runoff { IsRunoffAt start.now moment runoff.new }
    ensures summaries { AreRunoffsOf start.now (steps_done start.now.project.options.wet_ms moment) subs.new }
{
    while is_due(&start.project, runoff.begin, moment) {
        step_runoff(start, runoff);
        subs.add_runoff(runoff.steps.as_slice(), runoff.states.as_slice());
    }
}

// Finds the lateral inflow of each node at a moment, in cm³/s.
pub(crate) fn find_laterals(start: &Start, moment: i64, runoff: &SubRunoff, laterals: &mut [i128])
    requires project { IsFaultless start.now.project }
    requires calendar { IsRunMoment start.now.project moment }
    requires moment { IsBetween (pos 0) moment (pos 316_224_000_000) }
    requires runoff { IsRunoffAt start.now moment runoff.now }
    requires places { length laterals.old ≡ length start.now.project.nodes }
    ensures { laterals.new ≡ laterals_at start.now moment }
{
    lateral_flows(&start.project, moment, laterals);
    add_laterals(start, runoff, laterals);
}
