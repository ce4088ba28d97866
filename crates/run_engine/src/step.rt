// One step of a run.
ghost use Rattle.std.specs.Prelude.{◌≡◌, ◌≤◌, length, ◌-ℤ◌};
ghost use Rattle.continuity.specs.StepOf.{IsBelowTops};
ghost use Rattle.link_eval.specs.Hydraulics.{hydraulics_of};
ghost use Rattle.fixed_num.specs.Ranges.{IsStepLength};
ghost use Rattle.time_series.specs.LateralFlow.{IsRunMoment};
ghost use Rattle.trial_model.specs.Fits.{Fits};
ghost use Rattle.trial_model.specs.Trial.{SumsOf};
ghost use Rattle.run_engine.specs.Kept.{HaveSameCounts};
ghost use Rattle.run_engine.specs.Laterals.{laterals_at};
ghost use Rattle.project_check.specs.Faultless.{IsFaultless};
ghost use Rattle.run_engine.specs.Settings.{settings_in};
ghost use Rattle.run_engine.specs.States.{next_nets, project_law, step_end};

use crate::prepare::prepare;
use crate::start::Start;
use link_eval::HydraulicLaw;
use net_types::List;
use trial_model::{Nets, StepEnd, step_alone};

// Makes the step that finishes at this moment and has this length, both in ms, from a state to the next, and keeps the
// state in `before`.
pub(crate) fn make_step(
    start: &Start,
    law: &HydraulicLaw,
    finish: i64,
    dt: i64,
    laterals: &[i128],
    settings: &[i64],
    before: &mut Nets,
    nets: &mut Nets,
) -> StepEnd
    requires project { IsFaultless start.now.project }
    requires law { law.now.hydraulics ≡ hydraulics_of start.now.project }
    requires finish { IsRunMoment start.now.project finish }
    requires dt { IsStepLength dt }
    requires laterals { laterals.now ≡ laterals_at start.now finish }
    requires settings { settings.now ≡ settings_in start.now.project (finish -ℤ dt) nets.old }
    requires room { Fits (project_law start.now.project) before.old }
    requires fits { Fits (project_law start.now.project) nets.old }
    requires tops { IsBelowTops (hydraulics_of start.now.project) nets.old }
    ensures before { before.new ≡ nets.old }
    ensures nets { nets.new ≡ next_nets start.now finish dt nets.old }
    ensures end { result ≡ step_end start.now finish dt nets.old }

    // What holds of the end and of the next state.
    ensures few { result.trials ≤ 20 }
    ensures fits { Fits (project_law start.now.project) nets.new }
    ensures sums { SumsOf (project_law start.now.project) nets.new }
    ensures tops { IsBelowTops (hydraulics_of start.now.project) nets.new }
{
    keep(nets, before);
    prepare(start, law, finish, dt, laterals, settings, nets);
    step_alone(law, nets, start.project.options.max_trials)
}

// Copies a state over another of the same network.
fn keep(nets: &Nets, before: &mut Nets)
    requires { HaveSameCounts nets.now before.old }
    ensures { before.new ≡ nets.now }
{
    copy(&nets.heads, &mut before.heads);
    copy(&nets.flows, &mut before.flows);
    copy(&nets.inflows, &mut before.inflows);
    copy(&nets.outflows, &mut before.outflows);
    copy(&nets.areas, &mut before.areas);
    copy(&nets.read_heads, &mut before.read_heads);
    copy(&nets.links, &mut before.links);
    copy(&nets.nodes, &mut before.nodes);
    before.least = nets.least;
}

// Copies all items of a list over another of the same length.
pub(crate) fn copy<T: Copy>(from: &List<T>, to: &mut List<T>)
    requires { length to.old ≡ length from.now }
    ensures { to.new ≡ from.now }
{
    to.as_mut_slice().copy_from_slice(from.as_slice());
}
