// A step with all that a run keeps of it.
ghost use Rattle.std.specs.Prelude.{◌≡◌, ◌+◌, ◌<◌, ◌≤◌, length, pos, true, if◌then◌else◌, ◌-ℤ◌};
ghost use Rattle.fixed_num.specs.Ranges.{IsBetween};
ghost use Rattle.link_eval.specs.Hydraulics.{hydraulics_of};
ghost use Rattle.report_port.specs.Adding.{Adds};
ghost use Rattle.trial_model.specs.Fits.{Fits};
ghost use Rattle.run_engine.specs.Kept.{AreCountsAt, AreFloodsAt, AreLoadsAt, AreSumsOf, IsKept, IsStateAt, IsTotalAt};
ghost use Rattle.run_engine.specs.Kept.{IsTotalFrom};
ghost use Rattle.run_engine.specs.Laterals.{laterals_at};
ghost use Rattle.run_engine.specs.Results.{end_at, length_before};
ghost use Rattle.project_check.specs.Faultless.{IsFaultless};
ghost use Rattle.run_engine.specs.Settings.{settings_in};
ghost use Rattle.run_engine.specs.States.{length_at, moment_at, project_law};
ghost use Rattle.run_engine.specs.StepLines.{line_before, own_line};
ghost use Rattle.run_engine.specs.Times.{IsRunStep, goes_on};

use crate::kept::Kept;
use crate::laterals::{advance_runoff, find_laterals};
use crate::output::reaches_report;
use crate::settings::find_settings;
use crate::start::Start;
use crate::step::make_step;
use crate::times::next_span;
use continuity::{RunAccount, account_step, find_floods};
use fault_ports::Sink;
use link_eval::HydraulicLaw;
use report_port::Report;
use report_writer::{RunCounts, add_step_line};
use summaries::{OutfallSums, Summaries};
use trial_model::{Nets, StepEnd};

// Makes one step more of all that a run keeps, and adds its account to that of the steps since the last step line.
pub(crate) fn one_step(start: &Start, law: &HydraulicLaw, kept: &mut Kept, since: &mut RunAccount)
    requires kept { IsKept start.now law.now.hydraulics kept.old }
    requires going { goes_on start.now.project.options kept.old.moment ≡ true }
    requires few { kept.old.counts.steps < 50_000_000 }
    requires since { IsTotalFrom start.now (line_before start.now (kept.old.counts.steps + 1))
        kept.old.counts.steps since.old }
    ensures kept { IsKept start.now law.now.hydraulics kept.new }
    ensures steps { kept.new.counts.steps ≡ kept.old.counts.steps + 1 }
    ensures since { IsTotalFrom start.now (line_before start.now kept.new.counts.steps)
        kept.new.counts.steps since.new }
{
    let made = kept.counts.steps;
    let span = next_span(&start.project.options, kept.moment, kept.nets.least);
    advance_runoff(start, span.finish, &mut kept.runoff, &mut kept.subs);
    let laterals = kept.laterals.as_mut_slice();
    find_laterals(start, span.finish, &kept.runoff, laterals);
    find_settings(&start.project, kept.moment, &kept.nets, &mut kept.room);
    let end = step_on(
        start,
        law,
        made,
        span.finish,
        span.length,
        laterals,
        kept.room.settings.as_slice(),
        &mut kept.before,
        &mut kept.nets,
    );
    let floods = kept.floods.as_mut_slice();
    add_floods(start, law, made, &kept.nets, floods);
    add_account(
        start,
        law,
        made,
        span.length,
        &kept.before,
        &kept.nets,
        floods,
        &mut kept.total,
        since,
    );
    let next = made + 1;
    add_state(start, next, span.finish, &kept.nets, floods, &mut kept.sums);
    add_load(start, next, span.length, &kept.nets, &mut kept.outfalls);
    add_counts(start, &end, &mut kept.counts);
    kept.moment = span.finish;
}

// Makes one step more, and adds the step line of its state where it has one.
pub(crate) fn step_and_line<W: Sink>(
    start: &Start,
    law: &HydraulicLaw,
    kept: &mut Kept,
    since: &mut RunAccount,
    report: &mut Report<'_, W>,
)
    requires kept { IsKept start.now law.now.hydraulics kept.old }
    requires going { goes_on start.now.project.options kept.old.moment ≡ true }
    requires few { kept.old.counts.steps < 50_000_000 }
    requires since { IsTotalFrom start.now (line_before start.now (kept.old.counts.steps + 1))
        kept.old.counts.steps since.old }
    ensures kept { IsKept start.now law.now.hydraulics kept.new }
    ensures steps { kept.new.counts.steps ≡ kept.old.counts.steps + 1 }
    ensures since { IsTotalFrom start.now (line_before start.now (kept.new.counts.steps + 1))
        kept.new.counts.steps since.new }
    ensures text { Adds report.old report.new (own_line start.now (kept.old.counts.steps + 1)) }
{
    let before = kept.moment;
    one_step(start, law, kept, since);
    if !reaches_report(&start.project.options, before, kept.moment) {
        return;
    }
    let account = since.total();
    since.clear();
    add_step_line(report, &kept.moment, &account);
}

// Makes the step from state `k` to the next, and keeps state `k` in `before`.
fn step_on(
    start: &Start,
    law: &HydraulicLaw,
    k: u64,
    finish: i64,
    dt: i64,
    laterals: &[i128],
    settings: &[i64],
    before: &mut Nets,
    nets: &mut Nets,
) -> StepEnd
    requires project { IsFaultless start.now.project }
    requires law { law.now.hydraulics ≡ hydraulics_of start.now.project }
    requires finish { finish ≡ moment_at start.now (k + 1) }
    requires length { dt ≡ length_at start.now k }
    requires step { IsRunStep start.now.project.options finish dt }
    requires laterals { laterals.now ≡ laterals_at start.now finish }
    requires settings { settings.now ≡ settings_in start.now.project (finish -ℤ dt) nets.old }
    requires room { Fits (project_law start.now.project) before.old }
    requires now { IsStateAt start.now k nets.old }
    ensures before { before.new ≡ nets.old }
    ensures next { IsStateAt start.now (k + 1) nets.new }
    ensures end { result ≡ end_at start.now k }
    ensures trials { result.trials ≤ 20 }
{
    make_step(start, law, finish, dt, laterals, settings, before, nets)
}

// Finds what flooded the nodes in the step from state `k` to the next.
fn add_floods(start: &Start, law: &HydraulicLaw, k: u64, nets: &Nets, floods: &mut [i128])
    requires law { law.now.hydraulics ≡ hydraulics_of start.now.project }
    requires next { IsStateAt start.now (k + 1) nets.now }
    requires room { length floods.old ≡ length start.now.project.nodes }
    ensures floods { AreFloodsAt start.now (k + 1) floods.new }
{
    find_floods(law, nets, floods);
}

// Adds the account of the step from state `k` to the next to that of all steps, and to that of the steps since the last
// step line.
fn add_account(
    start: &Start,
    law: &HydraulicLaw,
    k: u64,
    dt: i64,
    before: &Nets,
    nets: &Nets,
    floods: &[i128],
    total: &mut RunAccount,
    since: &mut RunAccount,
)
    requires project { IsFaultless start.now.project }
    requires law { law.now.hydraulics ≡ hydraulics_of start.now.project }
    requires few { k < 50_000_000 }
    requires length { dt ≡ length_at start.now k }
    requires before { IsStateAt start.now k before.now }
    requires next { IsStateAt start.now (k + 1) nets.now }
    requires floods { AreFloodsAt start.now (k + 1) floods.now }
    requires total { IsTotalAt start.now k total.old }
    requires since { IsTotalFrom start.now (line_before start.now (k + 1)) k since.old }
    ensures total { IsTotalAt start.now (k + 1) total.new }
    ensures since { IsTotalFrom start.now (line_before start.now (k + 1)) (k + 1) since.new }
{
    let account = account_step(law, before, nets, floods, dt);
    total.add(&account);
    since.add(&account);
}

// Adds state `k` to the summaries of the states before it.
pub(crate) fn add_state(
    start: &Start,
    k: u64,
    moment: i64,
    nets: &Nets,
    floods: &[i128],
    sums: &mut Summaries,
)
    requires project { IsFaultless start.now.project }
    requires few { k ≤ 50_000_000 }
    requires moment { moment ≡ moment_at start.now k }
    requires now { IsStateAt start.now k nets.now }
    requires floods { AreFloodsAt start.now k floods.now }
    requires sums { AreSumsOf start.now k sums.old }
    ensures sums { AreSumsOf start.now (k + 1) sums.new }
{
    sums.add_state(moment, nets, floods);
}

// Adds state `k`, to which a step of so many ms led, to the summaries of outfalls of the states before it.
pub(crate) fn add_load(start: &Start, k: u64, ms: i64, nets: &Nets, outfalls: &mut OutfallSums)
    requires project { IsFaultless start.now.project }
    requires few { k ≤ 50_000_000 }
    requires length { ms ≡ length_before start.now k }
    requires time { IsBetween (pos 0) ms (pos 3_600_000) }
    requires now { IsStateAt start.now k nets.now }
    requires outfalls { AreLoadsAt start.now k outfalls.old }
    ensures outfalls { AreLoadsAt start.now (k + 1) outfalls.new }
{
    outfalls.add_state(nets, ms);
}

// Counts a step that ended like this.
fn add_counts(start: &Start, end: &StepEnd, counts: &mut RunCounts)
    requires few { counts.old.steps < 50_000_000 }
    requires end { end.now ≡ end_at start.now counts.old.steps }
    requires trials { end.now.trials ≤ 20 }
    requires counts { AreCountsAt start.now counts.old.steps counts.old }
    ensures counts { AreCountsAt start.now (counts.old.steps + 1) counts.new }
    ensures steps { counts.new.steps ≡ counts.old.steps + 1 }
{
    let trials = u64::from(end.trials);
    counts.steps += 1;
    counts.trials += trials;
    counts.unsettled += unsettled_one(end.settled);
}

// 1 for a step that did not settle.
fn unsettled_one(settled: bool) -> u64
    ensures { result ≡ (if settled then 0 else 1) }
{
    if settled { 0 } else { 1 }
}
