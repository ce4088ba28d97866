// The stages of outfalls.
ghost use Rattle.std.specs.Prelude.{◌≡◌, ◌^◌, ◌<◌, length, false};
ghost use Rattle.calendar_steps.specs.Moment.{IsPoint};
ghost use Rattle.fixed_num.specs.Ranges.{IsElevation, IsRaw};
ghost use Rattle.net_types.specs.Ranges.{NodeKindInRange, StageInRange};
ghost use Rattle.net_types.specs.Sound.{NodeKindNames, StageNames, IsSound};
ghost use Rattle.net_types.specs.Records.{curve_at, series_at};
ghost use Rattle.rising_pairs.specs.Readings.{held_value};
ghost use Rattle.time_series.specs.LateralFlow.{run_point as run_point_of, IsRunMoment};
ghost use Rattle.time_series.specs.SeriesValues.{series_value};
ghost use Rattle.time_series.specs.Stages.{elevation_of, hour6_of, kind_stage, stage_at, stage_level};

use crate::lateral::run_point;
use crate::series::value_between;
use calendar_steps::CalendarPoint;
use fixed_num::{cut, quo};
use inp_values::{Quantity, unit_of};
use net_types::{FlowUnits, NodeKind, Project, Stage};
use rising_pairs::held_reading;

/// The stage of a node at a moment in ms since the start of the run, in µm, within 10^10.
///
/// A fixed stage is the same at all moments; a tidal one is read in its curve at the hour of the day, and one by a
/// series in its series, where the ends hold. A free and a normal outfall have no stage of their own, nor have other
/// nodes: 0. The moment lies in the years 1900 to 2200. Source: User's Manual, section [OUTFALLS]; rounding and range
/// are this project's profile.
pub fn node_stage(project: &Project, node: u32, moment: i64) -> i64
    requires sound { IsSound project.now }
    requires node { node < length project.now.nodes }
    requires calendar { IsRunMoment project.now moment }
    ensures value { result ≡ stage_at project.now node moment }
    ensures range { IsElevation result }
{
    kind_stage(
        project,
        moment,
        &project.nodes.as_slice()[node as usize].kind,
    )
}

// The stage of a node of this kind.
fn kind_stage(project: &Project, moment: i64, kind: &NodeKind) -> i64
    requires sound { IsSound project.now }
    requires calendar { IsRunMoment project.now moment }
    requires range { NodeKindInRange kind.now }
    requires names { NodeKindNames project.now kind.now }
    ensures value { result ≡ kind_stage project.now moment kind.now }
    ensures range { IsElevation result }
{
    match kind {
        NodeKind::Outfall { stage, .. } => stage_level(project, moment, stage),
        NodeKind::Junction { .. } | NodeKind::Storage { .. } => 0,
    }
}

// The level of a stage.
fn stage_level(project: &Project, moment: i64, stage: &Stage) -> i64
    requires sound { IsSound project.now }
    requires calendar { IsRunMoment project.now moment }
    requires range { StageInRange stage.now }
    requires names { StageNames project.now stage.now }
    ensures value { result ≡ stage_level project.now moment stage.now }
    ensures range { IsElevation result }
{
    match stage {
        Stage::Free | Stage::Normal => 0,
        Stage::Fixed(level) => *level,
        Stage::Tidal(curve) => elevation(project.options.units, tide(project, *curve, moment)),
        Stage::Series(series) => elevation(
            project.options.units,
            series_stage(project, *series, moment),
        ),
    }
}

// What a tidal curve is read as at a moment, in millionths.
fn tide(project: &Project, curve: u32, moment: i64) -> i64
    requires sound { IsSound project.now }
    requires calendar { IsRunMoment project.now moment }
    requires curve { curve < length project.now.curves }
    ensures value { result ≡ held_value (curve_at project.now.curves curve).points
        (hour6_of (run_point_of project.now moment)) }
    ensures range { IsRaw result }
{
    let at = run_point(project, moment);
    let curve = &project.curves.as_slice()[curve as usize];
    held_reading(curve.points.as_slice(), hour6(&at))
}

// What a series is read as at a moment, in millionths.
fn series_stage(project: &Project, series: u32, moment: i64) -> i64
    requires sound { IsSound project.now }
    requires series { series < length project.now.series }
    ensures value { result ≡ series_value (series_at project.now.series series).entries moment false }
    ensures range { IsRaw result }
{
    value_between(&project.series.as_slice()[series as usize], moment, false)
}

// The hour of the day, in millionths.
#[tactic(auto, using(fixed_num::proofs::Bounds::casts), unfolding(crate::specs::Stages::hour6_of))]
pub(crate) fn hour6(at: &CalendarPoint) -> i64
    requires { IsPoint at.now }
    ensures { result ≡ hour6_of at.now }
{
    quo(at.ms_of_day as i128 * 1_000_000, 3_600_000) as i64
}

// Millionths of the user's unit of an elevation, in µm and brought into the range of an elevation.
#[tactic(auto, using(fixed_num::proofs::Bounds::casts), unfolding(crate::specs::Stages::elevation_of))]
pub(crate) fn elevation(units: FlowUnits, value6: i64) -> i64
    requires { IsRaw value6 }
    ensures value { result ≡ elevation_of units value6 }
    ensures range { IsElevation result }
{
    let unit = unit_of(units, Quantity::Elevation);
    let level = quo(
        value6 as i128 * unit.num as i128,
        unit.den as i128 * 1_000_000,
    );
    cut(level, -10_000_000_000, 10_000_000_000) as i64
}
