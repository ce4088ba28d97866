// A run of a project by one worker.
ghost use Rattle.std.specs.Prelude.{◌≡◌, ◌+◌, ◌++◌, true, false, IfOk, IfSome};
ghost use Rattle.continuity.specs.Account.{Balances};
ghost use Rattle.fault_ports.specs.Causes.{HasCause};
ghost use Rattle.fault_ports.specs.Output.{Puts};
ghost use Rattle.hotstart.specs.HotRanges.{IsHotState};
ghost use Rattle.project_check.specs.Faultless.{IsFaultless};
ghost use Rattle.run_engine.specs.Hot.{IsHotFor, last_of};
ghost use Rattle.run_engine.specs.Progress.{IsAt, IsGoingAt};
ghost use Rattle.run_engine.specs.Report.{front_after, tail_after};
ghost use Rattle.run_engine.specs.States.{steps_of};
ghost use Rattle.run_engine.specs.StepLines.{last_line, lines_until, own_line};
ghost use Rattle.report_port.specs.Adding.{Adds, AddsOrStops};

use crate::begin::open_kept;
use crate::hot::{keep_last, open_last};
use crate::kept::Kept;
use crate::one_step::step_and_line;
use crate::output::{add_last_line, put_figures};
use crate::start::Start;
use crate::times::goes_on;
use continuity::RunAccount;
use fault_ports::{Failed, Sink};
use hotstart::HotState;
use link_eval::HydraulicLaw;
use net_types::{OutOfMemory, Project, StepAccount};
use report_port::Report;
use report_writer::{RunCounts, add_head, add_steps_heading};
use std::alloc::Global;
use std::marker::Model;

/// A run: what it began with, its state, the state before, what its steps and states came to so far, the account of the
/// steps since the last step line, and the state that it keeps for a hotstart.
#[derive(Debug, Drop)]
pub struct Run {
    start: Start,
    law: HydraulicLaw,
    kept: Kept,
    since: RunAccount,
    last: HotState,
}

impl Model for Run {
    ghost use Rattle.run_engine.specs.Progress.{Progress};
    ghost use Rattle.std.specs.Prelude.{◌+◌};
    ghost use Rattle.run_engine.specs.Hot.{IsRoomFor};
    ghost use Rattle.run_engine.specs.Kept.{IsKept, IsTotalFrom};
    ghost use Rattle.run_engine.specs.StepLines.{line_before};

    ghost Value = { Progress };

    ghost view = { λ s. record {
      start = s.start;
      nets = s.kept.nets;
      total = s.kept.total.total;
      nodes = s.kept.sums.nodes;
      links = s.kept.sums.links;
      outfalls = s.kept.outfalls.outfalls;
      subs = s.kept.subs.subs;
      counts = s.kept.counts;
      last = s.last;
    } };

    ghost invariant = { λ s. IsKept s.start s.law.hydraulics s.kept
        × IsTotalFrom s.start (line_before s.start (s.kept.counts.steps + 1)) s.kept.counts.steps s.since
        × IsRoomFor s.start.project s.last };
}

/// Opens the run of a project at its first state, which is that of a hotstart where one is given. The only error is
/// want of memory.
///
/// The hotstart is one of this project. Its heads at junctions and storages are brought into invert to top, and the
/// states of its subcatchments into the ranges of their infiltration. Source: this project's profile.
pub fn open_run(alloc: Global, project: Project, hot: Option<HotState>) -> Result<Run, OutOfMemory>
    requires project { IsFaultless project }
    requires hot { IfSome hot (IsHotFor project) }
    ensures { IfOk result (λ run. (run.start ≡ record { project = project; hot = hot }) × IsAt run 0) }
{
    let start = Start { project, hot };
    let law = HydraulicLaw::build(alloc, &start.project)?;
    let last = open_last(alloc, &start.project)?;
    let kept = open_kept(alloc, &start, &law)?;
    Ok(Run {
        start,
        law,
        kept,
        since: RunAccount::new(),
        last,
    })
}

impl Run {
    /// Makes all steps by one worker, and puts the report's head and the step lines as they are reached, in pages. It
    /// takes no memory.
    ///
    /// A state after the first has a step line where it is the first at or past some multiple of the report step, and
    /// the last one has one in any case. The only error is a call of the sink that failed, which is the last one.
    /// Source: Reference Manual volume II, chapter 3; this project's profile.
    pub fn advance_alone<W: Sink>(&mut self, rpt: &mut W) -> Result<(), Failed>
        requires { IsAt self.old 0 }
        ensures bytes { Puts (W.held rpt.old) (W.held rpt.new)
            (front_after self.old.start (steps_of self.old.start)) result }
        ensures cause { HasCause (W.faults rpt.old) (W.faults rpt.new) result }
        ensures start { self.new.start ≡ self.old.start }
        ensures at { IfOk result (λ _. IsAt self.new (steps_of self.new.start)) }
        ensures last { IfOk result (λ _. self.new.last ≡ last_of self.new.start) }
        ensures written { IfOk result (λ _. IsHotState self.new.last) }
    {
        match self.put_front(rpt) {
            Ok(()) => {
                self.keep_state();
                Ok(())
            }
            Err(failed) => Err(failed),
        }
    }

    // Keeps the last state for a hotstart, once all steps are made.
    fn keep_state(&mut self)
        requires { IsAt self.old (steps_of self.old.start) }
        ensures start { self.new.start ≡ self.old.start }
        ensures at { IsAt self.new (steps_of self.new.start) }
        ensures last { self.new.last ≡ last_of self.new.start }
        ensures written { IsHotState self.new.last }
    {
        keep_last(&self.start, &self.kept, &mut self.last);
    }

    /// The state that the run keeps for a hotstart: the last one, once all steps are made. [`hotstart::write_hot`]
    /// takes it. No memory is taken.
    ///
    /// Source: this project's profile.
    pub fn hot_state(&self) -> &HotState
        ensures { result.now ≡ self.now.last }
    {
        &self.last
    }

    /// Puts the rest of the report of the run, the figures, once all its steps are made.
    ///
    /// Source: this project's profile.
    pub fn finish<W: Sink>(&self, rpt: &mut W) -> Result<(), Failed>
        requires { IsAt self.now (steps_of self.now.start) }
        ensures bytes { Puts (W.held rpt.old) (W.held rpt.new)
            (tail_after self.now.start (steps_of self.now.start)) result }
        ensures cause { HasCause (W.faults rpt.old) (W.faults rpt.new) result }
    {
        let total = self.kept.total.total();
        put_figures(
            rpt,
            &self.start.project,
            &total,
            &self.kept.sums,
            &self.kept.outfalls,
            &self.kept.subs,
            &self.kept.counts,
        )
    }

    /// The account of the steps so far, in mm³. It balances.
    pub fn total(&self) -> StepAccount
        ensures value { result ≡ self.now.total }
        ensures balance { Balances result }
    {
        self.kept.total.total()
    }

    /// The least time in ms, up to an hour, that a wave took through a link in the last trial.
    ///
    /// Source: Reference Manual volume II, chapter 3 (variable steps).
    pub fn least_travel_time(&self) -> i64
        ensures { result ≡ self.now.nets.least }
    {
        self.kept.nets.least
    }

    /// How many steps and trials there were so far, and how many of the steps did not settle.
    pub fn counts(&self) -> RunCounts
        ensures { result ≡ self.now.counts }
    {
        self.kept.counts
    }

    // Whether there is a step left.
    fn goes_on(&self) -> bool
        ensures at { IsAt self.now self.now.counts.steps }
        ensures more { result ≡ true → IsGoingAt self.now.start self.now.counts.steps }
        ensures last { result ≡ false → self.now.counts.steps ≡ steps_of self.now.start }
    {
        self.kept.counts.steps < 50_000_000
            && goes_on(&self.start.project.options, self.kept.moment)
    }

    // Puts the head and the heading, makes all steps, and puts their lines.
    fn put_front<W: Sink>(&mut self, rpt: &mut W) -> Result<(), Failed>
        requires { IsAt self.old 0 }
        ensures bytes { Puts (W.held rpt.old) (W.held rpt.new)
            (front_after self.old.start (steps_of self.old.start)) result }
        ensures cause { HasCause (W.faults rpt.old) (W.faults rpt.new) result }
        ensures start { self.new.start ≡ self.old.start }
        ensures at { IfOk result (λ _. IsAt self.new (steps_of self.new.start)) }
    {
        let mut report = Report::new(rpt);
        self.add_front(&mut report);
        report.end()
    }

    // Adds the head and the heading, makes all steps, and adds their lines. It stops where a call of the sink failed.
    fn add_front<W: Sink>(&mut self, report: &mut Report<'_, W>)
        requires { IsAt self.old 0 }
        ensures text { AddsOrStops report.old report.new (front_after self.old.start (steps_of self.old.start)) }
        ensures start { self.new.start ≡ self.old.start }
        ensures at { report.new.failed ≡ false → IsAt self.new (steps_of self.new.start) }
    {
        add_head(report, &self.start.project);
        add_steps_heading(report);
        self.add_steps(report);
    }

    // Makes all steps, and adds the line of each state that has one, and of the last state. It stops where a call of
    // the sink failed.
    fn add_steps<W: Sink>(&mut self, report: &mut Report<'_, W>)
        requires { IsAt self.old 0 }
        ensures text { AddsOrStops report.old report.new (lines_until self.old.start (steps_of self.old.start)
            ++ last_line self.old.start (steps_of self.old.start)) }
        ensures start { self.new.start ≡ self.old.start }
        ensures at { report.new.failed ≡ false → IsAt self.new (steps_of self.new.start) }
    {
        while self.goes_on() {
            self.add_step(report);
            if report.has_failed() {
                return;
            }
        }
        self.add_last(report);
    }

    // Adds the line of the last state, where it has none of its own.
    fn add_last<W: Sink>(&self, report: &mut Report<'_, W>)
        requires { IsAt self.now (steps_of self.now.start) }
        ensures { Adds report.old report.new (last_line self.now.start (steps_of self.now.start)) }
    {
        add_last_line(report, &self.kept.moment, &self.since);
    }

    // Makes one step more, and adds the line of its state where it has one.
    fn add_step<W: Sink>(&mut self, report: &mut Report<'_, W>)
        requires { IsGoingAt self.old.start self.old.counts.steps }
        ensures text { Adds report.old report.new (own_line self.old.start (self.old.counts.steps + 1)) }
        ensures start { self.new.start ≡ self.old.start }
        ensures steps { self.new.counts.steps ≡ self.old.counts.steps + 1 }
        ensures at { IsAt self.new self.new.counts.steps }
    {
        step_and_line(
            &self.start,
            &self.law,
            &mut self.kept,
            &mut self.since,
            report,
        );
    }
}
