// The faults of the nodes of a project.
ghost use Rattle.std.specs.Prelude.{◌≡◌, ℕ, ◌++◌, ◌<◌, ◌≤◌, length, take, flat_map, OnOk, pos};
ghost use Rattle.std.specs.List.{range_with_len};
ghost use Rattle.net_types.specs.declared.project.Project.{Project as WholeProject};
ghost use Rattle.project_check.specs.Ends.{ends_of, node_ends_at};
ghost use Rattle.project_check.specs.Objects.{begins_too_high, has_wrong_links, is_too_shallow, node_fault};
ghost use Rattle.project_check.specs.ProjectFaults.{fault_if, node_faults};

use crate::ends::{NodeEnds, kind_height};
use crate::faults::add_fault;
use crate::network::{is_outfall, is_storage};
use net_types::{FaultKind, List, Node, OutOfMemory, ProjectFault};
use std::alloc::Global;

// The least depth of a storage, in µm.
const LEAST_DEPTH: i64 = 1_000;

// Adds the faults of all nodes.
pub(crate) fn check_nodes(
    alloc: Global,
    nodes: &[Node],
    ends: &[NodeEnds],
    faults: &mut List<ProjectFault>,
) -> Result<(), OutOfMemory>
    requires room { length faults.old ≤ 100 }
    requires count { length ends.now ≡ length nodes.now }
    ensures { (project : WholeProject) → project.nodes ≡ nodes.now
        → ((n : ℕ) → n < length nodes.now → node_ends_at ends.now n ≡ ends_of project.links n)
        → OnOk result (faults.new
        ≡ take 100 (faults.old ++ flat_map (node_faults project) (range_with_len 0 (length nodes.now)))) }
{
    for n in 0..nodes.len() {
        check_node(alloc, &nodes[n], &ends[n], faults)?;
    }
    Ok(())
}

// Adds the fault of a node, if it has one.
fn check_node(
    alloc: Global,
    node: &Node,
    ends: &NodeEnds,
    faults: &mut List<ProjectFault>,
) -> Result<(), OutOfMemory>
    requires room { length faults.old ≤ 100 }
    ensures { OnOk result (faults.new
        ≡ take 100 (faults.old ++ fault_if (node_fault node.now ends.now) node.now.name)) }
{
    match node_fault(node, ends) {
        Some(kind) => add_fault(alloc, faults, kind, &node.name),
        None => Ok(()),
    }
}

// The fault of a node.
#[tactic(auto, unfolding(crate::specs::Objects::node_fault))]
fn node_fault(node: &Node, ends: &NodeEnds) -> Option<FaultKind>
    ensures { result ≡ node_fault node.now ends.now }
{
    if has_wrong_links(node, ends) {
        return Some(FaultKind::OutfallLinks);
    }
    if begins_too_high(node, ends) {
        return Some(FaultKind::InitialDepth);
    }
    if is_too_shallow(node) {
        return Some(FaultKind::BadObject);
    }
    None
}

fn has_wrong_links(node: &Node, ends: &NodeEnds) -> bool
    ensures { result ≡ has_wrong_links node.now ends.now }
{
    is_outfall(node) && (ends.ends >= 2 || ends.begins >= 1)
}

fn begins_too_high(node: &Node, ends: &NodeEnds) -> bool
    ensures { result ≡ begins_too_high node.now ends.now }
{
    node.y0 > kind_height(&node.kind, node.y_max, ends.top)
}

fn is_too_shallow(node: &Node) -> bool
    ensures { result ≡ is_too_shallow node.now }
{
    is_storage(node) && node.y_max < LEAST_DEPTH
}
