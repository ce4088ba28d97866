// The figures of a run.
ghost use Rattle.std.specs.Prelude.{◌≡◌, ℕ, ◌+◌, ◌^◌, ◌≤◌, List as Sequence, length, IfOk, ℤ, pos};
ghost use Rattle.std.specs.List.{All};
ghost use Rattle.fixed_num.specs.Ranges.{IsBetween, IsFlow, IsHead};
ghost use Rattle.trial_model.specs.declared.nets.Nets.{Nets as State};
ghost use Rattle.fixed_num.specs.Lists.{number};
ghost use Rattle.summaries.specs.Figures.{AreFigures, AreSummaries, HasGoodInvert, inverts_of, new_figures};
ghost use Rattle.summaries.specs.Peaks.{IsPeak, Peak as PeakOf, peak_of};

use crate::link_summary::{LinkSummary, add_links, new_links};
use crate::node_summary::{NodeSummary, add_nodes, new_nodes};
use net_types::{List, Node, OutOfMemory, Project};
use std::alloc::Global;
use std::marker::Model;
use trial_model::Nets;

/// The summaries of all nodes and links over the states that were added, at most 50,000,001.
#[derive(Debug, Drop)]
pub struct Summaries {
    inverts: List<i64>,
    nodes: List<NodeSummary>,
    links: List<LinkSummary>,
    states: u64,
}

impl Model for Summaries {
    ghost use Rattle.summaries.specs.Figures.{Figures};

    ghost Value = { Figures };

    ghost view = { λ s. record { inverts = s.inverts; nodes = s.nodes; links = s.links; states = s.states } };
}

impl Summaries {
    /// The summaries of no state, for the nodes and links of a project.
    ///
    /// The inverts lie within 10^10 µm. The only error is want of memory.
    pub fn with_room(alloc: Global, project: &Project) -> Result<Summaries, OutOfMemory>
        requires { All HasGoodInvert project.now.nodes }
        ensures value { IfOk result (λ summaries. summaries ≡ new_figures project.now) }
        ensures figures { IfOk result (λ summaries. AreFigures summaries) }
    {
        let count = project.links.as_slice().len();
        Ok(Summaries {
            inverts: inverts(alloc, project.nodes.as_slice())?,
            nodes: new_nodes(alloc, project.nodes.as_slice().len())?,
            links: new_links(alloc, count)?,
            states: 0,
        })
    }

    /// Takes one state more, at a moment in ms since the start, with what flooded each node in the step that led to it.
    ///
    /// Source: this project's profile.
    pub fn add_state(&mut self, moment: i64, nets: &Nets, floods: &[i128])
        requires figures { AreFigures self.old }
        requires states { self.old.states ≤ 50_000_000 }
        requires heads { length nets.now.heads ≡ length self.old.inverts }
        requires heads_in { (n : ℕ) → IsHead (number nets.now.heads n) }
        requires flows { length nets.now.flows ≡ length self.old.links }
        requires flows_in { (l : ℕ) → IsFlow (number nets.now.flows l) }
        requires floods { length floods.now ≡ length self.old.inverts }
        requires floods_in { (n : ℕ) → IsBetween (pos 0) (number floods.now n) (pos (10 ^ 28)) }
        ensures summaries { (run : ℕ → State) (flooded : ℕ → Sequence ℤ) (moments : ℕ → ℤ)
            → AreSummaries run flooded moments self.old
            → run self.old.states ≡ nets.now → flooded self.old.states ≡ floods.now → moments self.old.states ≡ moment
            → AreSummaries run flooded moments self.new }
        ensures figures { AreFigures self.new }
        ensures states { self.new.states ≡ self.old.states + 1 }
        ensures inverts { self.new.inverts ≡ self.old.inverts }
        ensures links { length self.new.links ≡ length self.old.links }
    {
        let first = self.states == 0;
        let inverts = self.inverts.as_slice();
        let heads = nets.heads.as_slice();
        let nodes = self.nodes.as_mut_slice();
        add_nodes(nodes, first, inverts, heads, floods, moment);
        let flows = nets.flows.as_slice();
        let links = self.links.as_mut_slice();
        add_links(links, first, flows, moment);
        self.states += 1;
    }

    /// The summaries of the nodes, in the order of the project.
    pub fn nodes(&self) -> &List<NodeSummary>
        ensures { result.now ≡ self.now.nodes }
    {
        &self.nodes
    }

    /// The summaries of the links, in the order of the project.
    pub fn links(&self) -> &List<LinkSummary>
        ensures { result.now ≡ self.now.links }
    {
        &self.links
    }
}

/// The peak of values over some states is the greatest of them, with the moment of the first state that has it.
pub fn peaks_are_greatest()
    ensures { (f moments : ℕ → ℤ) (last : ℕ) → IsPeak f moments (last + 1) (peak_of f moments last) }
{}

// The inverts of the nodes, in µm.
fn inverts(alloc: Global, nodes: &[Node]) -> Result<List<i64>, OutOfMemory>
    ensures { IfOk result (λ inverts. inverts ≡ inverts_of nodes.now) }
{
    let mut inverts = List::new(alloc);
    for node in nodes {
        inverts.push(node.invert)?;
    }
    Ok(inverts)
}
