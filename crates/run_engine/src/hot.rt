// The state of a run as it keeps it for a hotstart.
ghost use Rattle.std.specs.Prelude.{◌≡◌, IfOk, length, map};
ghost use Rattle.hotstart.specs.HotRanges.{IsHotState};
ghost use Rattle.hotstart.specs.Reading.{kind_of as kind_of_subs};
ghost use Rattle.link_eval.specs.Hydraulics.{hydraulics_of};
ghost use Rattle.net_types.specs.Sound.{IsSound};
ghost use Rattle.phase_law.specs.declared.values.LinkFixed.{LinkFixed as FixedOf};
ghost use Rattle.run_engine.specs.Hot.{IsRoomFor, hot_at, sub_in};
ghost use Rattle.run_engine.specs.Kept.{IsKept};

use crate::begin::places;
use crate::kept::Kept;
use crate::start::Start;
use crate::step::copy;
use hotstart::{HotState, HotSub};
use infiltration::{HortonState, InfilState};
use net_types::{InfilKind, List, OutOfMemory, Project, Sub};
use phase_law::LinkFixed;
use runoff::SubState;
use std::alloc::Global;
use trial_model::Nets;

// Room for a state of a project.
pub(crate) fn open_last(alloc: Global, project: &Project) -> Result<HotState, OutOfMemory>
    requires { IsSound project.now }
    ensures { IfOk result (λ room. IsRoomFor project.now room) }
{
    let nodes = project.nodes.as_slice().len() as u32;
    let links = project.links.as_slice().len() as u32;
    let subs = project.subs.as_slice();
    Ok(HotState {
        kind: kind_of(subs, project.options.infil),
        heads: places(alloc, nodes)?,
        flows: places(alloc, links)?,
        settings: places(alloc, links)?,
        least: 0,
        subs: sub_places(alloc, subs.len())?,
    })
}

// The kind of infiltration of a project: modified Horton where it has no subcatchment.
fn kind_of(subs: &[Sub], kind: InfilKind) -> InfilKind
    ensures { result ≡ kind_of_subs subs.now kind }
{
    match subs {
        [] => InfilKind::ModifiedHorton,
        [_, ..] => kind,
    }
}

// So many places for states of subcatchments.
fn sub_places(alloc: Global, count: usize) -> Result<List<HotSub>, OutOfMemory>
    ensures { IfOk result (λ subs. length subs ≡ count) }
{
    let mut subs = List::new(alloc);
    for _ in 0..count {
        subs.push(HotSub {
            depths: [0, 0, 0],
            flow: 0,
            infil: InfilState::Horton(HortonState { above: 0 }),
        })?;
    }
    Ok(subs)
}

// Keeps the state of a run for a hotstart.
pub(crate) fn keep_last(start: &Start, kept: &Kept, last: &mut HotState)
    requires kept { IsKept start.now (hydraulics_of start.now.project) kept.now }
    requires room { IsRoomFor start.now.project last.old }
    ensures state { last.new ≡ hot_at start.now kept.now.counts.steps }
    ensures written { IsHotState last.new }
    ensures room { IsRoomFor start.now.project last.new }
{
    keep_nets(&kept.nets, last);
    keep_subs(kept.runoff.states.as_slice(), last.subs.as_mut_slice());
}

// Keeps heads, flows, settings and the least travel time of a state.
fn keep_nets(nets: &Nets, last: &mut HotState)
    requires heads { length last.old.heads ≡ length nets.now.heads }
    requires flows { length last.old.flows ≡ length nets.now.flows }
    requires settings { length last.old.settings ≡ length nets.now.links }
    ensures { last.new ≡ record last.old {
      heads = nets.now.heads;
      flows = nets.now.flows;
      settings = map (λ (link : FixedOf). link.setting) nets.now.links;
      least = nets.now.least;
    } }
{
    copy(&nets.heads, &mut last.heads);
    copy(&nets.flows, &mut last.flows);
    keep_settings(nets.links.as_slice(), last.settings.as_mut_slice());
    last.least = nets.least;
}

// Keeps the setting of each link.
fn keep_settings(links: &[LinkFixed], settings: &mut [i64])
    requires { length settings.old ≡ length links.now }
    ensures { settings.new ≡ map (λ (link : FixedOf). link.setting) links.now }
{
    for l in 0..links.len() {
        settings[l] = links[l].setting;
    }
}

// Keeps the state of each subcatchment.
fn keep_subs(states: &[SubState], subs: &mut [HotSub])
    requires { length subs.old ≡ length states.now }
    ensures { subs.new ≡ map sub_in states.now }
{
    for place in 0..states.len() {
        subs[place] = hot_sub(&states[place]);
    }
}

// The state of a subcatchment as a hotstart keeps it.
fn hot_sub(state: &SubState) -> HotSub
    ensures { result ≡ sub_in state.now }
{
    HotSub {
        depths: state.depths,
        flow: state.flow,
        infil: state.infil,
    }
}
