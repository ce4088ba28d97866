// The summaries of outfalls.
ghost use Rattle.std.specs.Prelude.{◌≡◌, ℕ, ◌+◌, ◌*◌, ◌^◌, ◌<◌, ◌≤◌, length, map, IfOk};
ghost use Rattle.std.specs.Prelude.{OnOk, if◌then◌else◌, [], ◌∷◌, ◌++◌, ℤ, pos};
ghost use Rattle.fixed_num.specs.Ranges.{IsBetween, IsFlow, IsWithin};
ghost use Rattle.trial_model.specs.declared.nets.Nets.{Nets as State};
ghost use Rattle.summaries.specs.Loads.{AreLoads, AreLoadsOf, HasNets, load_at, net_by, net_in, no_load, no_loads};
ghost use Rattle.summaries.specs.Loads.{is_outfall_node, outfall_nodes, outfalls_from, volume_by, volume_in, with_load};

use net_types::{List, Node, NodeKind, OutOfMemory, Project};
use phase_law::NodeFixed;
use std::alloc::Global;
use std::marker::Model;
use trial_model::Nets;

/// What a run came to at an outfall, by the number of its node: the volume that left the network there, in mm³, and the
/// greatest net inflow of all states, in cm³/s.
#[derive(Clone, Copy, Debug, PartialEq, Eq)]
pub struct OutfallSummary {
    pub node: u32,
    pub volume: i128,
    pub max_flow: i64,
}

/// The summaries of all outfalls over the states that were added, at most 50,000,001.
#[derive(Debug, Drop)]
pub struct OutfallSums {
    outfalls: List<OutfallSummary>,
    states: u64,
}

impl Model for OutfallSums {
    ghost use Rattle.summaries.specs.Loads.{Loads};

    ghost Value = { Loads };

    ghost view = { λ s. record { outfalls = s.outfalls; states = s.states } };
}

impl OutfallSums {
    /// The summaries of no state, for the outfalls of a project of at most 4,294,967,295 nodes, in the order of its
    /// nodes.
    ///
    /// The only error is want of memory.
    pub fn with_room(alloc: Global, project: &Project) -> Result<OutfallSums, OutOfMemory>
        requires { length project.now.nodes ≤ 4_294_967_295 }
        ensures value { IfOk result (λ sums. sums ≡ no_loads project.now) }
        ensures loads { IfOk result (λ sums. AreLoadsOf (length project.now.nodes) sums) }
    {
        Ok(OutfallSums {
            outfalls: new_outfalls(alloc, project.nodes.as_slice())?,
            states: 0,
        })
    }

    /// Takes one state more, to which a step of so many ms led (0 for the first state).
    ///
    /// Source: this project's profile.
    pub fn add_state(&mut self, nets: &Nets, ms: i64)
        requires states { self.old.states ≤ 50_000_000 }
        requires nets { HasNets (length nets.now.nodes) nets.now }
        requires loads { AreLoadsOf (length nets.now.nodes) self.old }
        requires length { IsBetween (pos 0) ms (pos 3_600_000) }
        ensures summaries { (run : ℕ → State) (lengths : ℕ → ℤ) → AreLoads run lengths self.old
            → run self.old.states ≡ nets.now → lengths self.old.states ≡ ms → AreLoads run lengths self.new }
        ensures loads { AreLoadsOf (length nets.now.nodes) self.new }
        ensures states { self.new.states ≡ self.old.states + 1 }
        ensures nodes { outfall_nodes self.new.outfalls ≡ outfall_nodes self.old.outfalls }
    {
        let first = self.states == 0;
        let outfalls = self.outfalls.as_mut_slice();
        add_loads(outfalls, first, nets, ms);
        self.states += 1;
    }

    /// The summaries of the outfalls, in the order of the project's nodes.
    pub fn outfalls(&self) -> &List<OutfallSummary>
        ensures { result.now ≡ self.now.outfalls }
    {
        &self.outfalls
    }
}

// The net inflow of a node.
#[tactic(auto, using(fixed_num::proofs::Bounds::casts), unfolding(crate::specs::Loads::net_by))]
fn net(fixed: &NodeFixed, inflow: i64, outflow: i64) -> i64
    requires lateral { IsFlow fixed.now.lateral }
    requires inflow { IsBetween (pos 0) inflow (pos (2 * 10 ^ 16)) }
    requires outflow { IsBetween (pos 0) outflow (pos (2 * 10 ^ 16)) }
    ensures value { result ≡ net_by fixed.now inflow outflow }
    ensures range { IsWithin (3 * 10 ^ 16) result }
{
    fixed.lateral + inflow - outflow
}

// What came in over the step that led to a state.
#[tactic(auto, using(fixed_num::proofs::Bounds::casts), unfolding(crate::specs::Loads::volume_by))]
fn volume(fixed: &NodeFixed, net: i64, ms: i64) -> i128
    requires net_old { IsWithin (3 * 10 ^ 16) fixed.now.net_old }
    requires net { IsWithin (3 * 10 ^ 16) net }
    requires length { IsBetween (pos 0) ms (pos 3_600_000) }
    ensures value { result ≡ volume_by fixed.now net ms }
    ensures range { IsWithin (10 ^ 24) result }
{
    (ms / 2) as i128 * (fixed.net_old + net) as i128
}

// A summary with one state more.
fn with_state(summary: &OutfallSummary, first: bool, net: i64, volume: i128) -> OutfallSummary
    requires old { IsWithin (10 ^ 37) summary.now.volume }
    requires volume { IsWithin (10 ^ 24) volume }
    ensures { result ≡ with_load first summary.now net volume }
{
    if first {
        return OutfallSummary {
            node: summary.node,
            volume,
            max_flow: net,
        };
    }
    OutfallSummary {
        node: summary.node,
        volume: summary.volume + volume,
        max_flow: summary.max_flow.max(net),
    }
}

// One summary with a state.
fn load(summary: &OutfallSummary, first: bool, nets: &Nets, ms: i64) -> OutfallSummary
    requires nets { HasNets (length nets.now.nodes) nets.now }
    requires node { summary.now.node < length nets.now.nodes }
    requires old { IsWithin (10 ^ 37) summary.now.volume }
    requires length { IsBetween (pos 0) ms (pos 3_600_000) }
    ensures value { result
        ≡ with_load first summary.now (net_in nets.now summary.now.node) (volume_in nets.now ms summary.now.node) }
    ensures range { IsWithin (10 ^ 24) (volume_in nets.now ms summary.now.node) }
{
    let node = summary.node as usize;
    let fixed = &nets.nodes.as_slice()[node];
    let net = net(
        fixed,
        nets.inflows.as_slice()[node],
        nets.outflows.as_slice()[node],
    );
    with_state(summary, first, net, volume(fixed, net, ms))
}

// Takes one state more into every summary.
fn add_loads(outfalls: &mut [OutfallSummary], first: bool, nets: &Nets, ms: i64)
    requires nets { HasNets (length nets.now.nodes) nets.now }
    requires nodes { (k : ℕ) → k < length outfalls.old → (load_at outfalls.old k).node < length nets.now.nodes }
    requires old { (k : ℕ) → IsWithin (10 ^ 37) (load_at outfalls.old k).volume }
    requires length { IsBetween (pos 0) ms (pos 3_600_000) }
    ensures count { length outfalls.new ≡ length outfalls.old }
    ensures each { (k : ℕ) → k < length outfalls.old → load_at outfalls.new k
        ≡ with_load first (load_at outfalls.old k) (net_in nets.now (load_at outfalls.old k).node)
        (volume_in nets.now ms (load_at outfalls.old k).node) }
    ensures small { (k : ℕ) → k < length outfalls.old
        → IsWithin (10 ^ 24) (volume_in nets.now ms (load_at outfalls.old k).node) }
{
    for k in 0..outfalls.len() {
        outfalls[k] = load(&outfalls[k], first, nets, ms);
    }
}

// The summaries of no state of the outfalls among nodes.
fn new_outfalls(alloc: Global, nodes: &[Node]) -> Result<List<OutfallSummary>, OutOfMemory>
    requires { length nodes.now ≤ 4_294_967_295 }
    ensures { IfOk result (λ list. list ≡ map no_load (outfalls_from 0 nodes.now)) }
{
    let mut list = List::new(alloc);
    for n in 0..nodes.len() {
        add_outfall(&mut list, &nodes[n], n as u32)?;
    }
    Ok(list)
}

// Adds the summary of no state of a node, where it is an outfall.
fn add_outfall(list: &mut List<OutfallSummary>, node: &Node, n: u32) -> Result<(), OutOfMemory>
    ensures { OnOk result (list.new
        ≡ list.old ++ map no_load (if is_outfall_node node.now then n ∷ [] else [])) }
{
    if is_outfall(node) {
        return list.push(OutfallSummary {
            node: n,
            volume: 0,
            max_flow: 0,
        });
    }
    Ok(())
}

// Whether a node is an outfall.
fn is_outfall(node: &Node) -> bool
    ensures { result ≡ is_outfall_node node.now }
{
    match node.kind {
        NodeKind::Outfall { .. } => true,
        NodeKind::Junction { .. } | NodeKind::Storage { .. } => false,
    }
}
