// The summary of a node.
ghost use Rattle.std.specs.Prelude.{◌≡◌, ℕ, ◌^◌, ◌<◌, length, replicate, IfOk, pos, ◌-ℤ◌};
ghost use Rattle.fixed_num.specs.Ranges.{IsBetween, IsElevation, IsHead};
ghost use Rattle.fixed_num.specs.Lists.{number};
ghost use Rattle.summaries.specs.Steps.{no_node_summary, node_summary_at, with_node};

use net_types::{List, OutOfMemory};
use std::alloc::Global;

/// What a run came to at a node: its greatest depth in µm and the moment at which it was first met, in ms since the
/// start; its last head in µm; and the volume that flooded it, in mm³.
#[derive(Clone, Copy, Debug, PartialEq, Eq)]
pub struct NodeSummary {
    pub max_depth: i64,
    pub at: i64,
    pub last_head: i64,
    pub flooded: i128,
}

// One node's summary with one state more, which may be the first.
fn with_state(
    summary: &NodeSummary,
    first: bool,
    invert: i64,
    head: i64,
    flood: i128,
    moment: i64,
) -> NodeSummary
    requires invert { IsElevation invert }
    requires head { IsHead head }
    requires flood { IsBetween (pos 0) flood (pos (10 ^ 28)) }
    requires flooded { IsBetween (pos 0) summary.now.flooded (pos (10 ^ 37)) }
    ensures { result ≡ with_node first summary.now (head -ℤ invert) head flood moment }
{
    let depth = head - invert;
    if first {
        return NodeSummary {
            max_depth: depth,
            at: moment,
            last_head: head,
            flooded: flood,
        };
    }
    let flooded = summary.flooded + flood;
    if depth > summary.max_depth {
        return NodeSummary {
            max_depth: depth,
            at: moment,
            last_head: head,
            flooded,
        };
    }
    NodeSummary {
        max_depth: summary.max_depth,
        at: summary.at,
        last_head: head,
        flooded,
    }
}

// Takes one state more into every node's summary.
pub(crate) fn add_nodes(
    nodes: &mut [NodeSummary],
    first: bool,
    inverts: &[i64],
    heads: &[i64],
    floods: &[i128],
    moment: i64,
)
    requires inverts { length inverts.now ≡ length nodes.old }
    requires heads { length heads.now ≡ length nodes.old }
    requires floods { length floods.now ≡ length nodes.old }
    requires inverts_in { (n : ℕ) → IsElevation (number inverts.now n) }
    requires heads_in { (n : ℕ) → IsHead (number heads.now n) }
    requires floods_in { (n : ℕ) → IsBetween (pos 0) (number floods.now n) (pos (10 ^ 28)) }
    requires flooded { (n : ℕ) → IsBetween (pos 0) (node_summary_at nodes.old n).flooded (pos (10 ^ 37)) }
    ensures count { length nodes.new ≡ length nodes.old }
    ensures each { (n : ℕ) → n < length nodes.old → node_summary_at nodes.new n
        ≡ with_node first (node_summary_at nodes.old n)
        (number heads.now n -ℤ number inverts.now n) (number heads.now n) (number floods.now n) moment }
{
    for n in 0..nodes.len() {
        nodes[n] = with_state(&nodes[n], first, inverts[n], heads[n], floods[n], moment);
    }
}

// So many summaries of no state.
pub(crate) fn new_nodes(alloc: Global, count: usize) -> Result<List<NodeSummary>, OutOfMemory>
    ensures { IfOk result (λ list. list ≡ replicate count no_node_summary) }
{
    let mut list = List::new(alloc);
    for _ in 0..count {
        list.push(NodeSummary {
            max_depth: 0,
            at: 0,
            last_head: 0,
            flooded: 0,
        })?;
    }
    Ok(list)
}
