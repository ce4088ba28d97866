// The words and the seats at the start.
ghost use Rattle.std.specs.Prelude.{◌≡◌, ◌+◌, ◌*◌, ◌<◌, ◌++◌, length, replicate, OnOk, IfOk};
ghost use Rattle.fixed_num.specs.Lists.{number};
ghost use Rattle.phase_machine.specs.Core.{idle};
ghost use Rattle.trial_model.specs.Fits.{Fits, link_fixed_at, node_fixed_at};
ghost use Rattle.phase_core.specs.Opening.{link_words, node_words, LinksLaid, NodesLaid, AllLaid};

use crate::seat::Seat;
use net_types::{List, OutOfMemory};
use phase_law::{LinkFixed, NodeFixed, PhaseLaw};
use std::alloc::Global;
use trial_model::Nets;

/// Appends values to the words.
fn push_all(words: &mut List<i64>, values: &[i64]) -> Result<(), OutOfMemory>
    ensures { OnOk result (words.new ≡ words.old ++ values.now) }
{
    for k in 0..values.len() {
        words.push(values[k])?;
    }
    Ok(())
}

/// Appends the words of a link.
fn push_link(
    words: &mut List<i64>,
    links: &[LinkFixed],
    flows: &[i64],
    link: usize,
) -> Result<(), OutOfMemory>
    requires link { link < length links.now }
    requires flow { link < length flows.now }
    ensures { OnOk result (words.new
        ≡ words.old ++ link_words (link_fixed_at links.now link) (number flows.now link)) }
{
    let fixed = &links[link];
    let values = [
        fixed.q_old,
        fixed.a_old,
        fixed.setting,
        fixed.dt,
        flows[link],
        0,
    ];
    push_all(words, &values)
}

/// Appends the words of a node.
fn push_node(
    words: &mut List<i64>,
    nodes: &[NodeFixed],
    heads: &[i64],
    node: usize,
) -> Result<(), OutOfMemory>
    requires node { node < length nodes.now }
    requires head { node < length heads.now }
    ensures { OnOk result (words.new
        ≡ words.old ++ node_words (node_fixed_at nodes.now node) (number heads.now node)) }
{
    let fixed = &nodes[node];
    let values = [
        fixed.h_old,
        fixed.net_old,
        fixed.lateral,
        fixed.stage,
        fixed.dt,
        heads[node],
        0,
        0,
        0,
        0,
    ];
    push_all(words, &values)
}

/// Appends the words of all links.
fn push_links(words: &mut List<i64>, nets: &Nets) -> Result<(), OutOfMemory>
    requires size { length words.old ≡ 3 }
    requires flows { length nets.now.flows ≡ length nets.now.links }
    requires before { LinksLaid nets.now words.old 0 }
    ensures size { OnOk result (length words.new ≡ 3 + 6 * length nets.now.links) }
    ensures laid { OnOk result (LinksLaid nets.now words.new (length nets.now.links)) }
{
    let links = nets.links.as_slice();
    let flows = nets.flows.as_slice();
    for link in 0..links.len() {
        push_link(words, links, flows, link)?;
    }
    Ok(())
}

/// Appends the words of all nodes.
fn push_nodes<P: PhaseLaw>(law: &P, words: &mut List<i64>, nets: &Nets) -> Result<(), OutOfMemory>
    requires size { length words.old ≡ 3 + 6 * (P.law law.now).links }
    requires heads { length nets.now.heads ≡ length nets.now.nodes }
    requires before { NodesLaid (P.law law.now) nets.now words.old 0 }
    ensures size { OnOk result (length words.new ≡ 3 + 6 * (P.law law.now).links + 10 * length nets.now.nodes) }
    ensures laid { OnOk result (NodesLaid (P.law law.now) nets.now words.new (length nets.now.nodes)) }
{
    let _law = law;
    let nodes = nets.nodes.as_slice();
    let heads = nets.heads.as_slice();
    for node in 0..nodes.len() {
        push_node(words, nodes, heads, node)?;
    }
    Ok(())
}

/// The words at the start.
pub(crate) fn first_words<P: PhaseLaw>(
    alloc: Global,
    law: &P,
    nets: &Nets,
) -> Result<List<i64>, OutOfMemory>
    requires { Fits (P.law law.now) nets.now }
    ensures { IfOk result (λ words. AllLaid (P.law law.now) nets.now words) }
{
    let mut words = List::new(alloc);
    push_all(&mut words, &[0, 0, 1])?;
    push_links(&mut words, nets)?;
    push_nodes(law, &mut words, nets)?;
    words.push(3_600_000)?;
    Ok(words)
}

/// A list of the same words.
pub(crate) fn same_words(alloc: Global, words: &List<i64>) -> Result<List<i64>, OutOfMemory>
    ensures { IfOk result (λ same. same ≡ words.now) }
{
    let mut same = List::new(alloc);
    push_all(&mut same, words.as_slice())?;
    Ok(same)
}

/// So many seats that have done nothing.
pub(crate) fn idle_seats(alloc: Global, count: u32) -> Result<Vec<Seat>, OutOfMemory>
    ensures { IfOk result (λ seats. seats.items ≡ replicate count idle) }
{
    let mut seats = Vec::new(alloc);
    for _ in 0..count {
        seats.push(Seat::idle(alloc)?)?;
    }
    Ok(seats)
}
