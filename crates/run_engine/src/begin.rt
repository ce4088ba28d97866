// What a run keeps in the beginning.
ghost use Rattle.std.specs.Prelude.{◌≡◌, IfOk, IfSome, length, replicate, pos};
ghost use Rattle.link_eval.specs.Hydraulics.{hydraulics_of};
ghost use Rattle.run_engine.specs.Hot.{IsHotFor};
ghost use Rattle.run_engine.specs.Kept.{AreFloodsAt, AreLoadsAt, AreSumsOf, IsKept, IsStateAt};
ghost use Rattle.run_engine.specs.Laterals.{IsRunoffAt, laterals_at};
ghost use Rattle.run_engine.specs.SettingRoom.{HasPlaces};
ghost use Rattle.run_engine.specs.States.{project_law};
ghost use Rattle.trial_model.specs.Fits.{Fits};
ghost use Rattle.project_check.specs.Faultless.{IsFaultless};
ghost use Rattle.summaries.specs.Runoffs.{AreSmall, no_runoffs};

use crate::kept::Kept;
use crate::laterals::find_laterals;
use crate::one_step::{add_load, add_state};
use crate::opening::open_state;
use crate::settings::SettingRoom;
use crate::start::Start;
use crate::subs::{SubRunoff, open_runoff};
use continuity::RunAccount;
use link_eval::HydraulicLaw;
use net_types::{List, OutOfMemory};
use report_writer::RunCounts;
use std::alloc::Global;
use summaries::{OutfallSums, SubSums, Summaries};
use trial_model::Nets;

// So many zeros.
pub(crate) fn zeros(alloc: Global, count: u32) -> Result<List<i128>, OutOfMemory>
    ensures { IfOk result (λ list. list ≡ replicate count (pos 0)) }
{
    let mut list = List::new(alloc);
    for _ in 0..count {
        list.push(0)?;
    }
    Ok(list)
}

// So many places for settings and flows.
pub(crate) fn places(alloc: Global, count: u32) -> Result<List<i64>, OutOfMemory>
    ensures { IfOk result (λ list. length list ≡ count) }
{
    let mut list = List::new(alloc);
    for _ in 0..count {
        list.push(0)?;
    }
    Ok(list)
}

// Room for the settings of so many nodes and links.
pub(crate) fn open_room(alloc: Global, nodes: u32, links: u32) -> Result<SettingRoom, OutOfMemory>
    ensures inflows { IfOk result (λ room. length room.inflows ≡ nodes) }
    ensures pumped { IfOk result (λ room. length room.pumped ≡ links) }
    ensures settings { IfOk result (λ room. length room.settings ≡ links) }
{
    Ok(SettingRoom {
        inflows: places(alloc, nodes)?,
        pumped: places(alloc, links)?,
        settings: places(alloc, links)?,
    })
}

// The summaries with which a run begins: those of the opening state, and those of no step of runoff.
#[derive(Debug, Drop)]
pub(crate) struct OpeningSums {
    pub(crate) sums: Summaries,
    pub(crate) outfalls: OutfallSums,
    pub(crate) subs: SubSums,
}

// The summaries with which a run begins.
pub(crate) fn open_summaries(
    alloc: Global,
    start: &Start,
    nets: &Nets,
    floods: &List<i128>,
) -> Result<OpeningSums, OutOfMemory>
    requires project { IsFaultless start.now.project }
    requires now { IsStateAt start.now 0 nets.now }
    requires floods { AreFloodsAt start.now 0 floods.now }
    ensures sums { IfOk result (λ made. AreSumsOf start.now 1 made.sums) }
    ensures outfalls { IfOk result (λ made. AreLoadsAt start.now 1 made.outfalls) }
    ensures subs { IfOk result (λ made. made.subs ≡ no_runoffs start.now.project) }
    ensures small { IfOk result (λ made. AreSmall made.subs) }
{
    Ok(OpeningSums {
        subs: SubSums::with_room(alloc, &start.project)?,
        outfalls: open_outfalls(alloc, start, nets)?,
        sums: open_sums(alloc, start, nets, floods)?,
    })
}

// The summaries of the opening state.
fn open_sums(
    alloc: Global,
    start: &Start,
    nets: &Nets,
    floods: &List<i128>,
) -> Result<Summaries, OutOfMemory>
    requires project { IsFaultless start.now.project }
    requires now { IsStateAt start.now 0 nets.now }
    requires floods { AreFloodsAt start.now 0 floods.now }
    ensures { IfOk result (λ sums. AreSumsOf start.now 1 sums) }
{
    let mut sums = Summaries::with_room(alloc, &start.project)?;
    add_state(start, 0, 0, nets, floods.as_slice(), &mut sums);
    Ok(sums)
}

// The summaries of outfalls of the opening state, to which no step led.
fn open_outfalls(alloc: Global, start: &Start, nets: &Nets) -> Result<OutfallSums, OutOfMemory>
    requires project { IsFaultless start.now.project }
    requires now { IsStateAt start.now 0 nets.now }
    ensures { IfOk result (λ outfalls. AreLoadsAt start.now 1 outfalls) }
{
    let mut outfalls = OutfallSums::with_room(alloc, &start.project)?;
    add_load(start, 0, 0, nets, &mut outfalls);
    Ok(outfalls)
}

// What comes to the nodes from outside in the beginning: the runoff of the subcatchments, and the lateral inflows.
#[derive(Debug, Drop)]
struct OpeningWater {
    runoff: SubRunoff,
    laterals: List<i128>,
}

// What comes to the nodes from outside in the beginning.
fn open_water(alloc: Global, start: &Start) -> Result<OpeningWater, OutOfMemory>
    requires project { IsFaultless start.now.project }
    requires hot { IfSome start.now.hot (IsHotFor start.now.project) }
    ensures runoff { IfOk result (λ made. IsRunoffAt start.now (pos 0) made.runoff) }
    ensures laterals { IfOk result (λ made. made.laterals ≡ laterals_at start.now (pos 0)) }
{
    let nodes = start.project.nodes.as_slice().len() as u32;
    let runoff = open_runoff(alloc, start)?;
    let mut laterals = zeros(alloc, nodes)?;
    find_laterals(start, 0, &runoff, laterals.as_mut_slice());
    Ok(OpeningWater { runoff, laterals })
}

// Room for the state before, for settings and for floods.
#[derive(Debug, Drop)]
struct OpeningRoom {
    before: Nets,
    settings: SettingRoom,
    floods: List<i128>,
}

// Room for the state before, for settings and for floods: nothing has flooded in the beginning.
fn open_rooms(alloc: Global, start: &Start) -> Result<OpeningRoom, OutOfMemory>
    requires { IsFaultless start.now.project }
    ensures before { IfOk result (λ made. Fits (project_law start.now.project) made.before) }
    ensures settings { IfOk result (λ made. HasPlaces start.now.project made.settings) }
    ensures floods { IfOk result (λ made. made.floods ≡ replicate (length start.now.project.nodes) (pos 0)) }
{
    let nodes = start.project.nodes.as_slice().len() as u32;
    let links = start.project.links.as_slice().len() as u32;
    Ok(OpeningRoom {
        floods: zeros(alloc, nodes)?,
        settings: open_room(alloc, nodes, links)?,
        before: Nets::with_room(alloc, nodes, links)?,
    })
}

// All that a run keeps in the beginning.
pub(crate) fn open_kept(
    alloc: Global,
    start: &Start,
    law: &HydraulicLaw,
) -> Result<Kept, OutOfMemory>
    requires project { IsFaultless start.now.project }
    requires hot { IfSome start.now.hot (IsHotFor start.now.project) }
    requires law { law.now.hydraulics ≡ hydraulics_of start.now.project }
    ensures kept { IfOk result (λ kept. IsKept start.now law.now.hydraulics kept) }
    ensures steps { IfOk result (λ kept. kept.counts.steps ≡ 0) }
{
    let water = open_water(alloc, start)?;
    let nets = open_state(alloc, start, law, water.laterals.as_slice())?;
    let rooms = open_rooms(alloc, start)?;
    let opened = open_summaries(alloc, start, &nets, &rooms.floods)?;
    Ok(Kept {
        moment: 0,
        nets,
        before: rooms.before,
        runoff: water.runoff,
        laterals: water.laterals,
        room: rooms.settings,
        floods: rooms.floods,
        sums: opened.sums,
        outfalls: opened.outfalls,
        subs: opened.subs,
        total: RunAccount::new(),
        counts: RunCounts {
            steps: 0,
            trials: 0,
            unsettled: 0,
        },
    })
}
