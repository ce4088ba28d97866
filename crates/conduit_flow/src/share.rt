// What a conduit gives in a trial.
ghost use Rattle.std.specs.Prelude.{◌≡◌, ◌*◌, ◌^◌, ℤ, pos, ◌*ℤ◌};
ghost use Rattle.fixed_num.specs.Ranges.{AreBarrels, IsFlow, IsHead};
ghost use Rattle.phase_law.specs.Ranges.{LinkFixedInRange, ShareInRange};
ghost use Rattle.conduit_flow.specs.Conduits.{IsConduit, IsConduitTable};
ghost use Rattle.conduit_flow.specs.Geometry.{EndsInRange, MiddleInRange, IsWet};
ghost use Rattle.conduit_flow.specs.ConduitShare.{share_of, open_share_of, wet_share_of, barrel_flow_of};
ghost use Rattle.conduit_flow.specs.ConduitShare.{barrel_part_of, no_share as nothing};

use crate::conduit::ConduitData;
use crate::geometry::{Ends, Middle, end_area, ends_at, mean_depth, middle_at};
use crate::limits::{gated, held, limited, supplied};
use crate::momentum::momentum_flow;
use crate::travel::travel_time;
use fixed_num::{quo, relaxed};
use phase_law::{LinkFixed, Share};
use xsect_tables::Table;

/// The flow of a conduit in a trial, and the water surface that it adds at each end.
///
/// `near` and `far` are the heads of the nodes at its first and its second end (µm, ±2·10^10), `last` is its flow in
/// the last trial (cm³/s, ±10^12), `first` is true in the first trial of a step, and `fixed` is what stays the same
/// over the step's trials.
///
/// Source: Reference Manual volume II, chapter 3, in whole numbers by this project's profile.
#[tactic(auto, using(fixed_num::proofs::Bounds::casts), unfolding(crate::specs::ConduitShare::share_of))]
pub fn conduit_share(
    conduit: &ConduitData,
    table: &Table,
    fixed: &LinkFixed,
    first: bool,
    near: i64,
    far: i64,
    last: i64,
) -> Share
    requires conduit { IsConduit conduit.now }
    requires table { IsConduitTable table.now }
    requires fixed { LinkFixedInRange fixed.now }
    requires near { IsHead near }
    requires far { IsHead far }
    requires last { IsFlow last }
    ensures value { result ≡ share_of conduit.now table.now fixed.now first near far last }
    ensures range { ShareInRange result }
{
    if fixed.setting == 0 {
        return no_share();
    }
    let ends = ends_at(conduit, table, near, far);
    let middle = middle_at(table, mean_depth(conduit, near, far));
    open_share(conduit, table, fixed, &ends, &middle, first, last)
}

// A conduit that gives nothing.
fn no_share() -> Share
    ensures { result ≡ nothing }
{
    Share {
        q: 0,
        area1: 0,
        area2: 0,
        time: 3_600_000,
    }
}

// The share of a conduit that is not shut.
#[tactic(auto, using(fixed_num::proofs::Bounds::casts), unfolding(crate::specs::ConduitShare::open_share_of, crate::specs::ConduitShare::is_dry))]
fn open_share(
    conduit: &ConduitData,
    table: &Table,
    fixed: &LinkFixed,
    ends: &Ends,
    middle: &Middle,
    first: bool,
    last: i64,
) -> Share
    requires conduit { IsConduit conduit.now }
    requires table { IsConduitTable table.now }
    requires fixed { LinkFixedInRange fixed.now }
    requires ends { EndsInRange ends.now }
    requires middle { MiddleInRange middle.now }
    requires last { IsFlow last }
    ensures value { result ≡ open_share_of conduit.now table.now fixed.now ends.now middle.now first last }
    ensures range { ShareInRange result }
{
    if middle.area == 0 {
        return no_share();
    }
    if middle.radius == 0 {
        return no_share();
    }
    wet_share(conduit, table, fixed, ends, middle, first, last)
}

// The share of a conduit in whose middle there is water to flow.
#[tactic(auto, using(fixed_num::proofs::Bounds::casts), unfolding(crate::specs::ConduitShare::wet_share_of))]
fn wet_share(
    conduit: &ConduitData,
    table: &Table,
    fixed: &LinkFixed,
    ends: &Ends,
    middle: &Middle,
    first: bool,
    last: i64,
) -> Share
    requires conduit { IsConduit conduit.now }
    requires table { IsConduitTable table.now }
    requires fixed { LinkFixedInRange fixed.now }
    requires ends { EndsInRange ends.now }
    requires middle { IsWet middle.now }
    requires last { IsFlow last }
    ensures value { result ≡ wet_share_of conduit.now table.now fixed.now ends.now middle.now first last }
    ensures range { ShareInRange result }
{
    let barrels = table.barrels();
    let old_part = barrel_part(fixed.q_old, barrels);
    let last_part = barrel_part(last, barrels);
    let one = barrel_flow(
        conduit, table, fixed, ends, middle, first, old_part, last_part,
    );
    Share {
        q: barrels * one,
        area1: end_area(ends.width1, middle.width, conduit.length, barrels),
        area2: end_area(ends.width2, middle.width, conduit.length, barrels),
        time: travel_time(one, middle, conduit.length),
    }
}

// The part of a flow that one barrel carries.
#[tactic(auto, using(fixed_num::proofs::Bounds::casts), unfolding(crate::specs::ConduitShare::barrel_part_of))]
fn barrel_part(flow: i64, barrels: i64) -> i64
    requires flow { IsFlow flow }
    requires barrels { AreBarrels barrels }
    ensures value { result ≡ barrel_part_of flow barrels }
    ensures range { IsFlow result }
{
    if barrels == 1 {
        return flow;
    }
    quo(flow as i128, barrels as i128) as i64
}

// The flow of one barrel.
#[tactic(auto, using(fixed_num::proofs::Bounds::casts), unfolding(crate::specs::ConduitShare::barrel_flow_of))]
fn barrel_flow(
    conduit: &ConduitData,
    table: &Table,
    fixed: &LinkFixed,
    ends: &Ends,
    middle: &Middle,
    first: bool,
    old: i64,
    last: i64,
) -> i64
    requires conduit { IsConduit conduit.now }
    requires table { IsConduitTable table.now }
    requires fixed { LinkFixedInRange fixed.now }
    requires ends { EndsInRange ends.now }
    requires middle { IsWet middle.now }
    requires old { IsFlow old }
    requires last { IsFlow last }
    ensures value { result ≡ barrel_flow_of conduit.now table.now fixed.now ends.now middle.now first old last }
    ensures range { IsFlow result }
    // All barrels together carry no more than 10^12.
    ensures whole { IsFlow (table.now.barrels *ℤ result) }
{
    let driven = momentum_flow(conduit, fixed, ends, middle, old, last);
    let bound = limited(conduit, table, ends, driven);
    let relaxed = relaxed(first, last, bound);
    let supplied = supplied(ends, gated(conduit.flap, relaxed));
    held(conduit.q_max, table.barrels(), supplied)
}
