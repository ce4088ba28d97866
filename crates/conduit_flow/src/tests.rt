ghost use Rattle.std.specs.Prelude.{◌*◌, ◌^◌, ℤ, pos};
ghost use Rattle.fixed_num.specs.Ranges.{IsBetween, IsFlow, IsHead};
ghost use Rattle.phase_law.specs.Ranges.{LinkFixedInRange};
ghost use Rattle.conduit_flow.specs.Conduits.{IsConduit, IsConduitTable};

use crate::{ConduitData, conduit_share, conduit_volume, mid_area};
use net_types::{Damping, Limiter, Section, Shape};
use phase_law::{LinkFixed, Share};
use std::process::Abort;
use xsect_tables::Table;

// The table of a channel two metres high and one metre wide.
fn channel(rt: &impl Abort) -> Table
    ensures { IsConduitTable result }
{
    let section = Section {
        shape: Shape::RectOpen { width: 1_000_000 },
        full: 2_000_000,
        barrels: 1,
    };
    let table = Table::build(&section);
    let full = table.full_area();
    assert!(rt; full >= 1);
    assert!(rt; full <= 100_000_000_000);
    table
}

// A conduit 100 m long of roughness 0.01.
fn reach(z1: i64, limiter: Limiter) -> ConduitData
    requires { IsHead z1 }
    ensures { IsConduit result }
{
    ConduitData {
        z1,
        z2: 0,
        length: 100_000_000,
        n6: 10_000,
        q_max: 0,
        entry6: 0,
        exit6: 0,
        avg6: 0,
        flap: false,
        damping: Damping::Full,
        limiter,
    }
}

// A step of ten seconds from an old flow.
fn step(q_old: i64) -> LinkFixed
    requires { IsFlow q_old }
    ensures { LinkFixedInRange result }
{
    LinkFixed {
        q_old,
        a_old: 0,
        setting: 1_000_000,
        dt: 10_000,
    }
}

// The table of two pipes of one metre side by side.
fn pipes(rt: &impl Abort) -> Table
    ensures { IsConduitTable result }
{
    let section = Section {
        shape: Shape::Circular,
        full: 1_000_000,
        barrels: 2,
    };
    let table = Table::build(&section);
    let full = table.full_area();
    assert!(rt; full >= 1);
    assert!(rt; full <= 100_000_000_000);
    table
}

// A sewer 100 m long of roughness 0.013, without losses.
fn sewer(damping: Damping, flap: bool) -> ConduitData
    ensures { IsConduit result }
{
    ConduitData {
        z1: 0,
        z2: 0,
        length: 100_000_000,
        n6: 13_000,
        q_max: 0,
        entry6: 0,
        exit6: 0,
        avg6: 0,
        flap,
        damping,
        limiter: Limiter::Both,
    }
}

// The same with losses at its two ends and on the way.
fn lossy(damping: Damping) -> ConduitData
    ensures { IsConduit result }
{
    ConduitData {
        entry6: 500_000,
        exit6: 1_000_000,
        avg6: 100_000,
        ..sewer(damping, false)
    }
}

// A step of five seconds from an old flow over an old area.
fn short_step(q_old: i64, a_old: i64) -> LinkFixed
    requires flow { IsFlow q_old }
    requires area { IsBetween (pos 0) a_old (pos (10 ^ 12)) }
    ensures { LinkFixedInRange result }
{
    LinkFixed {
        q_old,
        a_old,
        setting: 1_000_000,
        dt: 5_000,
    }
}

// A share with areas of its own at each end.
fn uneven(q: i64, area1: i64, area2: i64, time: i64) -> Share {
    Share {
        q,
        area1,
        area2,
        time,
    }
}

// A share with both areas alike.
fn share(q: i64, area: i64, time: i64) -> Share {
    Share {
        q,
        area1: area,
        area2: area,
        time,
    }
}

#[test]
fn a_level_reach_fills(rt: HostRuntime) {
    let table = channel(&rt);
    let reach = reach(0, Limiter::Both);
    let a = conduit_share(&reach, &table, &step(0), true, 1_000_000, 1_000_000, 0);
    let b = conduit_share(&reach, &table, &step(0), false, 1_010_000, 1_000_000, 0);
    let c = conduit_share(
        &reach,
        &table,
        &step(4_932),
        true,
        1_009_877,
        1_000_000,
        4_932,
    );
    let d = conduit_share(
        &reach,
        &table,
        &step(4_932),
        false,
        1_018_897,
        1_000_000,
        14_671,
    );
    assert_eq!(rt; a, share(0, 50_000_000, 31_920));
    assert_eq!(rt; b, share(4_932, 50_000_000, 31_791));
    assert_eq!(rt; c, share(14_671, 50_000_000, 31_694));
    assert_eq!(rt; d, share(19_155, 50_000_000, 31_580));
}

#[test]
fn water_runs_back(rt: HostRuntime) {
    let table = channel(&rt);
    let reach = reach(0, Limiter::Both);
    let back = conduit_share(&reach, &table, &step(0), true, 1_000_000, 1_100_000, 0);
    assert_eq!(rt; back, share(-103_053, 50_000_000, 30_227));
}

#[test]
fn a_steep_reach_is_held_to_its_normal_flow(rt: HostRuntime) {
    let table = channel(&rt);
    let (both, froude, slope) = steep(&table);
    assert_eq!(rt;
        conduit_share(&reach(0, Limiter::Both), &table, &step(0), true, 0, 0, 0),
        share(0, 0, 3_600_000)
    );
    assert_eq!(rt; both, share(4_581, 50_000_000, 87_895));
    assert_eq!(rt; froude, share(4_581, 50_000_000, 87_895));
    assert_eq!(rt; slope, share(4_956, 50_000_000, 82_459));
}

// The shares of a steep reach by the three limiters.
fn steep(table: &Table) -> (Share, Share, Share)
    requires { IsConduitTable table.now }
{
    (
        steep_by(table, Limiter::Both),
        steep_by(table, Limiter::Froude),
        steep_by(table, Limiter::Slope),
    )
}

// The share of a steep reach by a limiter.
fn steep_by(table: &Table, limiter: Limiter) -> Share
    requires { IsConduitTable table.now }
{
    let reach = reach(1_000_000, limiter);
    conduit_share(&reach, table, &step(0), true, 1_010_000, 0, 0)
}

#[test]
fn water_that_stands_in_a_reach(rt: HostRuntime) {
    let table = channel(&rt);
    let reach = reach(0, Limiter::Both);
    assert_eq!(rt; mid_area(&reach, &table, 1_009_877, 1_000_000), 1_004_939);
    assert_eq!(rt;
        conduit_volume(&reach, &table, 1_000_000, 1_000_000),
        100_000_000_000
    );
    assert_eq!(rt;
        conduit_volume(&reach, &table, 1_009_877, 1_000_000),
        100_493_900_000
    );
}

#[test]
fn the_middle_of_a_reach_that_fills(rt: HostRuntime) {
    let table = channel(&rt);
    let reach = reach(0, Limiter::Both);
    assert_eq!(rt; mid_area(&reach, &table, 1_000_000, 1_000_000), 1_000_000);
    assert_eq!(rt; mid_area(&reach, &table, 1_010_000, 1_000_000), 1_005_000);
    assert_eq!(rt; mid_area(&reach, &table, 1_018_897, 1_000_000), 1_009_449);
}

#[test]
fn the_hydraulic_radius_of_a_reach_that_fills(rt: HostRuntime) {
    let table = channel(&rt);
    assert_eq!(rt; table.radius(1_000_000), 333_333);
    assert_eq!(rt; table.radius(1_005_000), 333_887);
    assert_eq!(rt; table.radius(1_004_939), 333_880);
    assert_eq!(rt; table.radius(1_009_449), 334_377);
}

#[test]
fn inertia_by_the_kind_of_damping(rt: HostRuntime) {
    let pipes = pipes(&rt);
    let fixed = short_step(400_000, 500_000);
    let none = conduit_share(
        &lossy(Damping::Zero),
        &pipes,
        &fixed,
        false,
        800_000,
        600_000,
        900_000,
    );
    let full = conduit_share(
        &lossy(Damping::Full),
        &pipes,
        &fixed,
        false,
        800_000,
        600_000,
        900_000,
    );
    let fast = conduit_share(
        &lossy(Damping::Partial),
        &pipes,
        &fixed,
        false,
        600_000,
        500_000,
        1_400_000,
    );
    assert_eq!(rt; none, uneven(812_392, 85_825_700, 94_815_400, 31_256));
    assert_eq!(rt; full, uneven(691_846, 85_825_700, 94_815_400, 32_291));
    assert_eq!(rt; fast, uneven(811_480, 98_739_000, 99_749_300, 33_265));
}

#[test]
fn pipes_without_losses(rt: HostRuntime) {
    let pipes = pipes(&rt);
    let fixed = short_step(400_000, 500_000);
    let sewer = sewer(Damping::Partial, false);
    let slow = conduit_share(&sewer, &pipes, &fixed, false, 800_000, 600_000, 900_000);
    let full = conduit_share(
        &sewer,
        &pipes,
        &short_step(900_000, 785_000),
        false,
        1_400_000,
        1_200_000,
        900_000,
    );
    assert_eq!(rt; slow, uneven(824_022, 85_825_700, 94_815_400, 31_159));
    assert_eq!(rt; full, uneven(962_004, 1_000_000, 1_000_000, 3_518));
}

#[test]
fn a_flap_gate_keeps_water_from_running_back(rt: HostRuntime) {
    let pipes = pipes(&rt);
    let fixed = short_step(0, 500_000);
    let free = conduit_share(
        &sewer(Damping::Partial, false),
        &pipes,
        &fixed,
        true,
        600_000,
        800_000,
        0,
    );
    let barred = conduit_share(
        &sewer(Damping::Partial, true),
        &pipes,
        &fixed,
        true,
        600_000,
        800_000,
        0,
    );
    assert_eq!(rt; free, uneven(-115_276, 94_815_400, 85_825_700, 38_374));
    assert_eq!(rt; barred, uneven(0, 94_815_400, 85_825_700, 39_876));
}
