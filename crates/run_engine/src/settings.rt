// The settings of the links over a step.
ghost use Rattle.std.specs.Prelude.{◌≡◌, ◌<◌, ◌^◌, ◌*◌, length, pos};
ghost use Rattle.fixed_num.specs.Lists.{number};
ghost use Rattle.fixed_num.specs.Ranges.{IsBetween, IsFall, IsFlow, IsPart};
ghost use Rattle.run_engine.specs.Amounts.{AreAmounts, HaveLaterals};
ghost use Rattle.project_check.specs.Faultless.{IsFaultless};
ghost use Rattle.run_engine.specs.Settings.{first_depth, pumped_setting, pumped_settings, seen_inflow, seen_inflows};
ghost use Rattle.run_engine.specs.Settings.{setting_by_depth, settings_in};
ghost use Rattle.run_engine.specs.States.{project_law};
ghost use Rattle.run_engine.specs.SettingRoom.{HasPlaces};
ghost use Rattle.time_series.specs.LateralFlow.{IsRunMoment};
ghost use Rattle.trial_model.specs.Fits.{Fits, HeadsFit, LinksFit, link_fixed_at, node_fixed_at};

use calendar_steps::point_at;
use control_rules::{Facts, settings_after};
use net_types::{LinkKind, List, Project};
use phase_law::{LinkFixed, NodeFixed};
use pump_flow::pump_setting;
use trial_model::Nets;

// Room for what the rules see, the inflow of each node and the setting of each link by the depths, and for the settings
// that they leave.
#[derive(Debug, Drop)]
pub(crate) struct SettingRoom {
    pub(crate) inflows: List<i64>,
    pub(crate) pumped: List<i64>,
    pub(crate) settings: List<i64>,
}

// Finds the settings over the step that begins in a state at this moment, in ms since the start of the run.
pub(crate) fn find_settings(project: &Project, moment: i64, nets: &Nets, room: &mut SettingRoom)
    requires project { IsFaultless project.now }
    requires moment { IsRunMoment project.now moment }
    requires fits { Fits (project_law project.now) nets.now }
    requires places { HasPlaces project.now room.old }
    ensures settings { room.new.settings ≡ settings_in project.now moment nets.now }
    ensures places { HasPlaces project.now room.new }
{
    see_state(project, nets, room);
    follow_rules(project, moment, nets, room);
}

// Finds what the rules see beside heads and flows: the inflows of the nodes, and the settings by the depths.
fn see_state(project: &Project, nets: &Nets, room: &mut SettingRoom)
    requires project { IsFaultless project.now }
    requires fits { Fits (project_law project.now) nets.now }
    requires places { HasPlaces project.now room.old }
    ensures inflows { room.new.inflows ≡ seen_inflows project.now nets.now.inflows nets.now.nodes }
    ensures pumped { room.new.pumped ≡ pumped_settings project.now nets.now.heads nets.now.links }
    ensures settings { room.new.settings ≡ room.old.settings }
{
    let inflows = nets.inflows.as_slice();
    let nodes = nets.nodes.as_slice();
    see_inflows(project, inflows, nodes, room.inflows.as_mut_slice());
    let heads = nets.heads.as_slice();
    let links = nets.links.as_slice();
    find_pumped(project, heads, links, room.pumped.as_mut_slice());
}

// Finds the settings that the rules leave, by what they see in a state at this moment.
fn follow_rules(project: &Project, moment: i64, nets: &Nets, room: &mut SettingRoom)
    requires project { IsFaultless project.now }
    requires moment { IsRunMoment project.now moment }
    requires fits { Fits (project_law project.now) nets.now }
    requires inflows { room.old.inflows ≡ seen_inflows project.now nets.now.inflows nets.now.nodes }
    requires pumped { room.old.pumped ≡ pumped_settings project.now nets.now.heads nets.now.links }
    requires places { length room.old.settings ≡ length project.now.links }
    ensures settings { room.new.settings ≡ settings_in project.now moment nets.now }
    ensures inflows { room.new.inflows ≡ room.old.inflows }
    ensures pumped { room.new.pumped ≡ room.old.pumped }
{
    let pumped = room.pumped.as_slice();
    let facts = Facts {
        heads: nets.heads.as_slice(),
        inflows: room.inflows.as_slice(),
        flows: nets.flows.as_slice(),
        settings: pumped,
        elapsed: moment,
        at: point_at(project.options.start, moment),
    };
    let settings = room.settings.as_mut_slice();
    settings.copy_from_slice(pumped);
    settings_after(project, &facts, settings);
}

// Finds the inflow of each node that the rules see, in cm³/s.
fn see_inflows(project: &Project, inflows: &[i64], nodes: &[NodeFixed], seen: &mut [i64])
    requires inflows { AreAmounts (length project.now.nodes) inflows.now }
    requires nodes { HaveLaterals (length project.now.nodes) nodes.now }
    requires places { length seen.old ≡ length project.now.nodes }
    ensures { seen.new ≡ seen_inflows project.now inflows.now nodes.now }
{
    let count = project.nodes.as_slice().len();
    for n in 0..count {
        seen[n] = seen_inflow(inflows, nodes, n);
    }
}

// The inflow of a node that the rules see, in cm³/s.
fn seen_inflow(inflows: &[i64], nodes: &[NodeFixed], n: usize) -> i64
    requires inside { n < length inflows.now }
    requires known { n < length nodes.now }
    requires inflow { IsBetween (pos 0) (number inflows.now n) (pos (2 * 10 ^ 16)) }
    requires lateral { IsFlow (node_fixed_at nodes.now n).lateral }
    ensures { result ≡ seen_inflow inflows.now nodes.now n }
{
    inflows[n] + nodes[n].lateral.max(0)
}

// Finds the setting of each link by the depths of a state: pumps start and stop by the depth at their inlet.
fn find_pumped(project: &Project, heads: &[i64], links: &[LinkFixed], settings: &mut [i64])
    requires project { IsFaultless project.now }
    requires heads { HeadsFit (project_law project.now) heads.now }
    requires links { LinksFit (project_law project.now) links.now }
    requires places { length settings.old ≡ length project.now.links }
    ensures { settings.new ≡ pumped_settings project.now heads.now links.now }
{
    let count = project.links.as_slice().len() as u32;
    for l in 0..count {
        settings[l as usize] = pumped_setting(project, heads, links, l);
    }
}

// The setting of a link by the depth at its first node.
fn pumped_setting(project: &Project, heads: &[i64], links: &[LinkFixed], l: u32) -> i64
    requires project { IsFaultless project.now }
    requires l { l < length project.now.links }
    requires heads { HeadsFit (project_law project.now) heads.now }
    requires links { length links.now ≡ length project.now.links }
    requires setting { IsPart (link_fixed_at links.now l).setting }
    ensures { result ≡ pumped_setting project.now heads.now links.now l }
{
    let place = l as usize;
    let own = project.links.as_slice();
    let link = &own[place];
    let depth = first_depth(project, heads, l);
    setting_by_depth(&link.kind, depth, links[place].setting)
}

// The depth of water at the first node of a link, in µm.
fn first_depth(project: &Project, heads: &[i64], l: u32) -> i64
    requires project { IsFaultless project.now }
    requires l { l < length project.now.links }
    requires heads { HeadsFit (project_law project.now) heads.now }
    ensures value { result ≡ first_depth project.now heads.now l }
    ensures range { IsFall result }
{
    let links = project.links.as_slice();
    let nodes = project.nodes.as_slice();
    let link = &links[l as usize];
    let node = &nodes[link.first as usize];
    heads[link.first as usize] - node.invert
}

// The setting of a link of this kind with this depth at its first node, whose setting was this.
fn setting_by_depth(kind: &LinkKind, depth: i64, setting: i64) -> i64
    requires setting { IsPart setting }
    ensures value { result ≡ setting_by_depth kind.now depth setting }
    ensures range { IsPart result }
{
    match kind {
        LinkKind::Pump {
            startup,
            shutoff,
            ..
        } => pump_setting(*startup, *shutoff, depth, setting),
        LinkKind::Conduit { .. } | LinkKind::Orifice { .. } | LinkKind::Weir { .. } => setting,
    }
}
