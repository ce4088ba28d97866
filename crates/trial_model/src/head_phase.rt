// The second half of a trial: the next head of every node.
ghost use Rattle.std.specs.Prelude.{◌≡◌, ℕ, ◌<◌, ◌≤◌, length};
ghost use Rattle.fixed_num.specs.Sums.{below};
ghost use Rattle.trial_model.specs.Fits.{Fits, HeadsFit, NodesFit, SumsFit};
ghost use Rattle.fixed_num.specs.Lists.{list_of};
ghost use Rattle.trial_model.specs.Trial.{next_of, next_in, unsettled_part};

use crate::nets::Nets;
use phase_law::{NodeFixed, NodeNext, PhaseLaw};

/// The next head of one node.
fn next_at<P: PhaseLaw>(
    law: &P,
    node: u32,
    nodes: &[NodeFixed],
    inflows: &[i64],
    outflows: &[i64],
    areas: &[i64],
    heads: &[i64],
    first: bool,
) -> NodeNext
    requires node { node < (P.law law.now).nodes }
    requires nodes { NodesFit (P.law law.now) nodes.now }
    requires sums { SumsFit (P.law law.now) inflows.now outflows.now areas.now }
    requires heads { HeadsFit (P.law law.now) heads.now }
    ensures { result ≡ next_of (P.law law.now) nodes.now first inflows.now outflows.now areas.now heads.now node }
{
    let place = node as usize;
    law.node_next(
        node,
        &nodes[place],
        first,
        inflows[place],
        outflows[place],
        areas[place],
        heads[place],
    )
}

/// 1 for a node that isn't settled.
fn unsettled_one(settled: bool) -> u32
    ensures { result ≡ unsettled_part settled }
{
    if settled { 0 } else { 1 }
}

/// Gives every node its next head, and counts the nodes that aren't settled.
fn make_heads<P: PhaseLaw>(
    law: &P,
    first: bool,
    nodes: &[NodeFixed],
    inflows: &[i64],
    outflows: &[i64],
    areas: &[i64],
    read_heads: &[i64],
    heads: &mut [i64],
) -> u32
    requires nodes { NodesFit (P.law law.now) nodes.now }
    requires sums { SumsFit (P.law law.now) inflows.now outflows.now areas.now }
    requires read_heads { HeadsFit (P.law law.now) read_heads.now }
    requires heads { length heads.old ≡ (P.law law.now).nodes }
    ensures heads { let l = P.law law.now in
        heads.new
        ≡ list_of (λ n. (next_of l nodes.now first inflows.now outflows.now areas.now read_heads.now n).head) l.nodes }
    ensures count { let l = P.law law.now in
        result ≡ below (λ n. unsettled_part
        (next_of l nodes.now first inflows.now outflows.now areas.now read_heads.now n).settled) l.nodes }
{
    let mut unsettled = 0;
    for node in 0..law.nodes() {
        let next = next_at(
            law, node, nodes, inflows, outflows, areas, read_heads, first,
        );
        heads[node as usize] = next.head;
        unsettled += unsettled_one(next.settled);
    }
    unsettled
}

/// Makes the second half of a trial, and gives the number of nodes that aren't settled.
pub(crate) fn head_phase<P: PhaseLaw>(law: &P, nets: &mut Nets, first: bool) -> u32
    requires { Fits (P.law law.now) nets.old }
    ensures nets { let l = P.law law.now in
        nets.new ≡ record nets.old { heads = list_of (λ n. (next_in l nets.old first n).head) l.nodes } }
    ensures count { let l = P.law law.now in
        result ≡ below (λ n. unsettled_part (next_in l nets.old first n).settled) l.nodes }
{
    let nodes = nets.nodes.as_slice();
    let inflows = nets.inflows.as_slice();
    let outflows = nets.outflows.as_slice();
    let areas = nets.areas.as_slice();
    let read_heads = nets.read_heads.as_slice();
    let heads = nets.heads.as_mut_slice();
    make_heads(
        law, first, nodes, inflows, outflows, areas, read_heads, heads,
    )
}
