// Making a state ready for the trials of a step.
ghost use Rattle.std.specs.Prelude.{◌≡◌, ◌<◌, length, ◌-ℤ◌};
ghost use Rattle.link_eval.specs.Hydraulics.{hydraulics_of, law_of, mid_area_at};
ghost use Rattle.fixed_num.specs.Ranges.{IsStepLength, IsFlow};
ghost use Rattle.time_series.specs.LateralFlow.{IsRunMoment};
ghost use Rattle.trial_model.specs.Fits.{Fits, FlowsFit, HeadsFit, node_fixed_at};
ghost use Rattle.fixed_num.specs.Lists.{number, list_of};
ghost use Rattle.project_check.specs.Faultless.{IsFaultless};
ghost use Rattle.run_engine.specs.Amounts.{AreAmounts, HaveLaterals};
ghost use Rattle.run_engine.specs.Laterals.{laterals_at};
ghost use Rattle.run_engine.specs.Settings.{settings_in};
ghost use Rattle.run_engine.specs.States.{link_start, node_start, prepared, project_law};

use crate::opening::lateral_here;
use crate::start::Start;
use link_eval::HydraulicLaw;
use phase_law::{LinkFixed, NodeFixed, PhaseLaw};
use time_series::node_stage;
use trial_model::Nets;

// Makes a state ready for the trials of a step that finishes at this moment and has this length, both in ms: the flows,
// heads and net inflows of the state stay the same over the trials, beside the settings of the links, and the lateral
// inflows and stages at the step's end.
pub(crate) fn prepare(
    start: &Start,
    law: &HydraulicLaw,
    finish: i64,
    dt: i64,
    laterals: &[i128],
    settings: &[i64],
    nets: &mut Nets,
)
    requires project { IsFaultless start.now.project }
    requires law { law.now.hydraulics ≡ hydraulics_of start.now.project }
    requires fits { Fits (project_law start.now.project) nets.old }
    requires finish { IsRunMoment start.now.project finish }
    requires dt { IsStepLength dt }
    requires laterals { laterals.now ≡ laterals_at start.now finish }
    requires settings { settings.now ≡ settings_in start.now.project (finish -ℤ dt) nets.old }
    ensures nets { nets.new ≡ prepared start.now finish dt nets.old }
    ensures fits { Fits (project_law start.now.project) nets.new }
{
    let heads = nets.heads.as_slice();
    let flows = nets.flows.as_slice();
    let inflows = nets.inflows.as_slice();
    let outflows = nets.outflows.as_slice();
    let links = nets.links.as_mut_slice();
    prepare_links(law, dt, heads, flows, settings, links);
    prepare_nodes(
        start,
        finish,
        dt,
        laterals,
        heads,
        inflows,
        outflows,
        nets.nodes.as_mut_slice(),
    );
}

// Sets what stays the same for every link over a step of this length.
fn prepare_links(
    law: &HydraulicLaw,
    dt: i64,
    heads: &[i64],
    flows: &[i64],
    settings: &[i64],
    links: &mut [LinkFixed],
)
    requires heads { HeadsFit (law_of law.now.hydraulics) heads.now }
    requires flows { FlowsFit (law_of law.now.hydraulics) flows.now }
    requires settings { length settings.now ≡ (law_of law.now.hydraulics).links }
    requires links { length links.old ≡ (law_of law.now.hydraulics).links }
    ensures { let h = law.now.hydraulics in links.new
        ≡ list_of (λ l. link_start h heads.now flows.now (number settings.now l) dt l) (law_of h).links }
{
    for link in 0..law.links() {
        let setting = settings[link as usize];
        links[link as usize] = link_start(law, link, setting, dt, heads, flows);
    }
}

// What stays the same over a step for a link with this setting.
fn link_start(
    law: &HydraulicLaw,
    link: u32,
    setting: i64,
    dt: i64,
    heads: &[i64],
    flows: &[i64],
) -> LinkFixed
    requires link { link < (law_of law.now.hydraulics).links }
    requires heads { HeadsFit (law_of law.now.hydraulics) heads.now }
    requires flows { FlowsFit (law_of law.now.hydraulics) flows.now }
    ensures { result ≡ link_start law.now.hydraulics heads.now flows.now setting dt link }
{
    LinkFixed {
        q_old: flows[link as usize],
        a_old: middle_area(law, link, heads),
        setting,
        dt,
    }
}

// The area of flow in the middle of a link, in mm².
fn middle_area(law: &HydraulicLaw, link: u32, heads: &[i64]) -> i64
    requires link { link < (law_of law.now.hydraulics).links }
    requires heads { HeadsFit (law_of law.now.hydraulics) heads.now }
    ensures { let h = law.now.hydraulics in let ends = (law_of h).ends link in
        result ≡ mid_area_at h link (number heads.now ends.0) (number heads.now ends.1) }
{
    let (near, far) = law.ends(link);
    law.mid_area(link, heads[near as usize], heads[far as usize])
}

// Sets what stays the same for every node over a step that finishes at this moment and has this length.
fn prepare_nodes(
    start: &Start,
    finish: i64,
    dt: i64,
    laterals: &[i128],
    heads: &[i64],
    inflows: &[i64],
    outflows: &[i64],
    nodes: &mut [NodeFixed],
)
    requires project { IsFaultless start.now.project }
    requires finish { IsRunMoment start.now.project finish }
    requires laterals { laterals.now ≡ laterals_at start.now finish }
    requires heads { length heads.now ≡ length start.now.project.nodes }
    requires inflows { AreAmounts (length start.now.project.nodes) inflows.now }
    requires outflows { AreAmounts (length start.now.project.nodes) outflows.now }
    requires nodes { HaveLaterals (length start.now.project.nodes) nodes.old }
    ensures { nodes.new ≡ list_of
        (node_start start.now heads.now inflows.now outflows.now nodes.old finish dt) (length start.now.project.nodes) }
{
    let count = start.project.nodes.as_slice().len() as u32;
    for n in 0..count {
        nodes[n as usize] = node_start(
            start, n, finish, dt, laterals, heads, inflows, outflows, nodes,
        );
    }
}

// What stays the same for a node over a step.
fn node_start(
    start: &Start,
    n: u32,
    finish: i64,
    dt: i64,
    laterals: &[i128],
    heads: &[i64],
    inflows: &[i64],
    outflows: &[i64],
    nodes: &[NodeFixed],
) -> NodeFixed
    requires project { IsFaultless start.now.project }
    requires n { n < length start.now.project.nodes }
    requires finish { IsRunMoment start.now.project finish }
    requires laterals { laterals.now ≡ laterals_at start.now finish }
    requires heads { length heads.now ≡ length start.now.project.nodes }
    requires inflows { AreAmounts (length start.now.project.nodes) inflows.now }
    requires outflows { AreAmounts (length start.now.project.nodes) outflows.now }
    requires nodes { length nodes.now ≡ length start.now.project.nodes }
    requires last { IsFlow (node_fixed_at nodes.now n).lateral }
    ensures { result ≡ node_start start.now heads.now inflows.now outflows.now nodes.now finish dt n }
{
    let place = n as usize;
    NodeFixed {
        h_old: heads[place],
        net_old: nodes[place].lateral + inflows[place] - outflows[place],
        lateral: lateral_here(laterals, n),
        stage: node_stage(&start.project, n, finish),
        dt,
    }
}
