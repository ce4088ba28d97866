// The opening state of a run.
ghost use Rattle.std.specs.Prelude.{◌≡◌, ◌<◌, if◌then◌else◌, length, pos, IfOk, IfSome, None};
ghost use Rattle.fixed_num.specs.Ranges.{IsElevation, IsDepth, IsFlow};
ghost use Rattle.link_eval.specs.Hydraulics.{hydraulics_of};
ghost use Rattle.trial_model.specs.Start.{resting};
ghost use Rattle.fixed_num.specs.Lists.{list_of, number};
ghost use Rattle.run_engine.specs.Laterals.{laterals_at};
ghost use Rattle.project_check.specs.Faultless.{IsFaultless};
ghost use Rattle.node_update.specs.NodeLaws.{IsNodeLaw};
ghost use Rattle.run_engine.specs.Hot.{IsHotFor};
ghost use Rattle.run_engine.specs.States.{head_from, kept_head, kind_flow, kind_head, kind_setting};
ghost use Rattle.run_engine.specs.States.{least_from, opening};
ghost use Rattle.run_engine.specs.States.{setting_from};
ghost use Rattle.run_engine.specs.States.{opening_flow, opening_head, opening_inflow, opening_level, opening_link};
ghost use Rattle.run_engine.specs.States.{opening_node, opening_outflow};

use crate::start::Start;
use link_eval::HydraulicLaw;
use net_types::{LinkKind, NodeKind, OutOfMemory};
use node_update::NodeLaw;
use phase_law::{LinkFixed, NodeFixed, PhaseLaw};
use std::alloc::Global;
use time_series::node_stage;
use trial_model::{Nets, sum_flows};

// The state before the first step: heads and flows, and what the nodes get of these flows.
pub(crate) fn open_state(
    alloc: Global,
    start: &Start,
    law: &HydraulicLaw,
    laterals: &[i128],
) -> Result<Nets, OutOfMemory>
    requires project { IsFaultless start.now.project }
    requires hot { IfSome start.now.hot (IsHotFor start.now.project) }
    requires law { law.now.hydraulics ≡ hydraulics_of start.now.project }
    requires laterals { laterals.now ≡ laterals_at start.now (pos 0) }
    ensures { IfOk result (λ nets. nets ≡ opening start.now) }
{
    let nodes = start.project.nodes.as_slice().len() as u32;
    let links = start.project.links.as_slice().len() as u32;
    let mut nets = Nets::with_room(alloc, nodes, links)?;
    open_nets(start, law, laterals, &mut nets);
    Ok(nets)
}

// Makes a state in which nothing has happened the opening state.
fn open_nets(start: &Start, law: &HydraulicLaw, laterals: &[i128], nets: &mut Nets)
    requires project { IsFaultless start.now.project }
    requires hot { IfSome start.now.hot (IsHotFor start.now.project) }
    requires law { law.now.hydraulics ≡ hydraulics_of start.now.project }
    requires laterals { laterals.now ≡ laterals_at start.now (pos 0) }
    requires nets { nets.old ≡ resting (length start.now.project.nodes) (length start.now.project.links) }
    ensures { nets.new ≡ opening start.now }
{
    open_flows(start, nets.flows.as_mut_slice());
    open_links(start, nets.links.as_mut_slice());
    open_nodes(start, laterals, nets.nodes.as_mut_slice());
    sum_flows(law, nets);
    let nodes = nets.nodes.as_slice();
    let inflows = nets.inflows.as_slice();
    let outflows = nets.outflows.as_slice();
    open_heads(
        start,
        law,
        nodes,
        inflows,
        outflows,
        nets.heads.as_mut_slice(),
    );
    nets.least = open_least(start);
}

// Sets the head of every node in the beginning, in µm.
fn open_heads(
    start: &Start,
    law: &HydraulicLaw,
    nodes: &[NodeFixed],
    inflows: &[i64],
    outflows: &[i64],
    heads: &mut [i64],
)
    requires project { IsFaultless start.now.project }
    requires hot { IfSome start.now.hot (IsHotFor start.now.project) }
    requires law { law.now.hydraulics ≡ hydraulics_of start.now.project }
    requires nodes { nodes.now ≡ list_of (opening_node start.now) (length start.now.project.nodes) }
    requires inflows { inflows.now ≡ list_of (opening_inflow start.now) (length start.now.project.nodes) }
    requires outflows { outflows.now ≡ list_of (opening_outflow start.now) (length start.now.project.nodes) }
    requires heads { length heads.old ≡ length start.now.project.nodes }
    ensures { heads.new ≡ list_of (opening_head start.now) (length start.now.project.nodes) }
{
    let count = start.project.nodes.as_slice().len() as u32;
    for n in 0..count {
        heads[n as usize] = open_head(start, law, nodes, inflows, outflows, n);
    }
}

// The head of a node in the beginning, in µm: its initial head, or that of the hotstart.
fn open_head(
    start: &Start,
    law: &HydraulicLaw,
    nodes: &[NodeFixed],
    inflows: &[i64],
    outflows: &[i64],
    n: u32,
) -> i64
    requires project { IsFaultless start.now.project }
    requires hot { IfSome start.now.hot (IsHotFor start.now.project) }
    requires law { law.now.hydraulics ≡ hydraulics_of start.now.project }
    requires nodes { nodes.now ≡ list_of (opening_node start.now) (length start.now.project.nodes) }
    requires inflows { inflows.now ≡ list_of (opening_inflow start.now) (length start.now.project.nodes) }
    requires outflows { outflows.now ≡ list_of (opening_outflow start.now) (length start.now.project.nodes) }
    requires n { n < length start.now.project.nodes }
    ensures { result ≡ opening_head start.now n }
{
    match &start.hot {
        Some(hot) => kept_head(law.node(n), hot.heads.as_slice()[n as usize]),
        None => initial_head(start, law, nodes, inflows, outflows, n),
    }
}

// A head of a hotstart, in µm: that of a junction and of a storage is brought into its invert to its top.
fn kept_head(law: &NodeLaw, head: i64) -> i64
    requires { IsNodeLaw law.now }
    ensures { result ≡ kept_head law.now head }
{
    if law.is_outfall() {
        return head;
    }
    head.max(law.invert).min(law.top)
}

// The initial head of a node, in µm.
fn initial_head(
    start: &Start,
    law: &HydraulicLaw,
    nodes: &[NodeFixed],
    inflows: &[i64],
    outflows: &[i64],
    n: u32,
) -> i64
    requires project { IsFaultless start.now.project }
    requires hot { IfSome start.now.hot (IsHotFor start.now.project) }
    requires law { law.now.hydraulics ≡ hydraulics_of start.now.project }
    requires nodes { nodes.now ≡ list_of (opening_node start.now) (length start.now.project.nodes) }
    requires inflows { inflows.now ≡ list_of (opening_inflow start.now) (length start.now.project.nodes) }
    requires outflows { outflows.now ≡ list_of (opening_outflow start.now) (length start.now.project.nodes) }
    requires n { n < length start.now.project.nodes }
    ensures { result ≡ head_from start.now.project None (opening_level start.now n) n }
{
    let level = open_level(start, law, nodes, inflows, outflows, n);
    let node = &start.project.nodes.as_slice()[n as usize];
    kind_head(&node.kind, node.invert, node.y0, level)
}

// The head that the law of a node gives in the beginning, in µm.
fn open_level(
    start: &Start,
    law: &HydraulicLaw,
    nodes: &[NodeFixed],
    inflows: &[i64],
    outflows: &[i64],
    n: u32,
) -> i64
    requires project { IsFaultless start.now.project }
    requires hot { IfSome start.now.hot (IsHotFor start.now.project) }
    requires law { law.now.hydraulics ≡ hydraulics_of start.now.project }
    requires nodes { nodes.now ≡ list_of (opening_node start.now) (length start.now.project.nodes) }
    requires inflows { inflows.now ≡ list_of (opening_inflow start.now) (length start.now.project.nodes) }
    requires outflows { outflows.now ≡ list_of (opening_outflow start.now) (length start.now.project.nodes) }
    requires n { n < length start.now.project.nodes }
    ensures { result ≡ opening_level start.now n }
{
    let place = n as usize;
    law.node_next(
        n,
        &nodes[place],
        true,
        inflows[place],
        outflows[place],
        0,
        0,
    )
    .head
}

// The initial head of a node of this kind, whose law gives this level, in µm.
fn kind_head(kind: &NodeKind, invert: i64, y0: i64, level: i64) -> i64
    requires invert { IsElevation invert }
    requires y0 { IsDepth y0 }
    ensures { result ≡ kind_head kind.now invert y0 level }
{
    match kind {
        NodeKind::Outfall { .. } => level,
        NodeKind::Junction { .. } | NodeKind::Storage { .. } => invert + y0,
    }
}

// Sets the flow of every link in the beginning, in cm³/s.
fn open_flows(start: &Start, flows: &mut [i64])
    requires hot { IfSome start.now.hot (IsHotFor start.now.project) }
    requires flows { length flows.old ≡ length start.now.project.links }
    ensures { flows.new ≡ list_of (opening_flow start.now) (length start.now.project.links) }
{
    let count = start.project.links.as_slice().len();
    for l in 0..count {
        flows[l] = open_flow(start, l);
    }
}

// The flow of a link in the beginning, in cm³/s: its initial flow, or that of the hotstart.
fn open_flow(start: &Start, l: usize) -> i64
    requires hot { IfSome start.now.hot (IsHotFor start.now.project) }
    requires l { l < length start.now.project.links }
    ensures { result ≡ opening_flow start.now l }
{
    match &start.hot {
        Some(hot) => hot.flows.as_slice()[l],
        None => kind_flow(&start.project.links.as_slice()[l].kind),
    }
}

// The initial flow of a link of this kind, in cm³/s.
fn kind_flow(kind: &LinkKind) -> i64
    ensures { result ≡ kind_flow kind.now }
{
    match kind {
        LinkKind::Conduit { q0, .. } => *q0,
        LinkKind::Pump { .. } | LinkKind::Orifice { .. } | LinkKind::Weir { .. } => 0,
    }
}

// Sets the setting of every link in the beginning, in millionths.
fn open_links(start: &Start, fixed: &mut [LinkFixed])
    requires hot { IfSome start.now.hot (IsHotFor start.now.project) }
    requires fixed { length fixed.old ≡ length start.now.project.links }
    ensures { fixed.new ≡ list_of (opening_link start.now) (length start.now.project.links) }
{
    let count = start.project.links.as_slice().len();
    for l in 0..count {
        fixed[l] = open_link(start, l);
    }
}

// What a link has of its own in the beginning.
fn open_link(start: &Start, l: usize) -> LinkFixed
    requires hot { IfSome start.now.hot (IsHotFor start.now.project) }
    requires l { l < length start.now.project.links }
    ensures { result ≡ opening_link start.now l }
{
    LinkFixed {
        q_old: 0,
        a_old: 0,
        setting: open_setting(start, l),
        dt: 0,
    }
}

// The setting of a link in the beginning, in millionths: its initial setting, or that of the hotstart.
fn open_setting(start: &Start, l: usize) -> i64
    requires hot { IfSome start.now.hot (IsHotFor start.now.project) }
    requires l { l < length start.now.project.links }
    ensures { result ≡ setting_from start.now.project start.now.hot l }
{
    match &start.hot {
        Some(hot) => hot.settings.as_slice()[l],
        None => kind_setting(&start.project.links.as_slice()[l].kind),
    }
}

// The initial setting of a link of this kind, in millionths.
fn kind_setting(kind: &LinkKind) -> i64
    ensures { result ≡ kind_setting kind.now }
{
    match kind {
        LinkKind::Pump { on, .. } => open_or_shut(*on),
        LinkKind::Conduit { .. } | LinkKind::Orifice { .. } | LinkKind::Weir { .. } => 1_000_000,
    }
}

// The setting of a pump that is on or off.
fn open_or_shut(on: bool) -> i64
    ensures { result ≡ (if on then pos 1_000_000 else pos 0) }
{
    if on { 1_000_000 } else { 0 }
}

// Sets what the nodes have of their own at the beginning.
fn open_nodes(start: &Start, laterals: &[i128], fixed: &mut [NodeFixed])
    requires project { IsFaultless start.now.project }
    requires laterals { laterals.now ≡ laterals_at start.now (pos 0) }
    requires fixed { length fixed.old ≡ length start.now.project.nodes }
    ensures { fixed.new ≡ list_of (opening_node start.now) (length start.now.project.nodes) }
{
    let count = start.project.nodes.as_slice().len() as u32;
    for n in 0..count {
        fixed[n as usize] = open_node(start, laterals, n);
    }
}

// What a node has of its own at the beginning: its lateral inflow in cm³/s and its stage in µm.
fn open_node(start: &Start, laterals: &[i128], n: u32) -> NodeFixed
    requires project { IsFaultless start.now.project }
    requires laterals { laterals.now ≡ laterals_at start.now (pos 0) }
    requires n { n < length start.now.project.nodes }
    ensures { result ≡ opening_node start.now n }
{
    NodeFixed {
        h_old: 0,
        net_old: 0,
        lateral: lateral_here(laterals, n),
        stage: node_stage(&start.project, n, 0),
        dt: 0,
    }
}

// The least travel time in the beginning, in ms: none, or that of the hotstart.
fn open_least(start: &Start) -> i64
    ensures { result ≡ least_from start.now.hot }
{
    match &start.hot {
        Some(hot) => hot.least,
        None => 0,
    }
}

// The lateral inflow of a node, in cm³/s, of the list of all.
pub(crate) fn lateral_here(laterals: &[i128], n: u32) -> i64
    requires n { n < length laterals.now }
    requires flow { IsFlow (number laterals.now n) }
    ensures { result ≡ number laterals.now n }
{
    laterals[n as usize] as i64
}
