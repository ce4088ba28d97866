// The nodes and links of an input.
ghost use Rattle.std.specs.Prelude.{◌≡◌, [], IfOk, OnOk};
ghost use Rattle.inp_lines.specs.Faults.{cut};
ghost use Rattle.inp_lines.specs.Gather.{gather};
ghost use Rattle.inp_lines.specs.Merge.{merged};
ghost use Rattle.inp_lines.specs.Order.{Rise};
ghost use Rattle.inp_forms.specs.Context.{context_of};
ghost use Rattle.inp_network.specs.Links.{link_fault, links_of};
ghost use Rattle.inp_network.specs.Nodes.{nodes_of};
ghost use Rattle.inp_reader.specs.Network.{full_links, network_fault};
ghost use Rattle.inp_sections.specs.CrossSections.{section_fault, sections_of};
ghost use Rattle.inp_sections.specs.Losses.{losses_fault, losses_of};

use inp_forms::Known;
use inp_lines::{Line, merge_faults};
use inp_network::{read_links, read_nodes};
use inp_sections::{
    OwnLosses, OwnSection, place_losses, place_sections, read_cross_sections, read_losses,
};
use net_types::{LineFault, Link, List, Node, OutOfMemory};
use std::alloc::Global;

/// The nodes and links of an input, and the first hundred faults of their lines.
#[derive(Debug, Drop)]
pub(crate) struct Network {
    pub(crate) nodes: List<Node>,
    pub(crate) links: List<Link>,
    pub(crate) faults: List<LineFault>,
}

/// Reads the nodes and links of an input, with the cross-sections and losses of links (User's Manual, sections
/// [JUNCTIONS], [OUTFALLS], [STORAGE], [CONDUITS], [PUMPS], [ORIFICES], [WEIRS], [XSECTIONS] and [LOSSES]).
pub(crate) fn read_network<'a>(
    alloc: Global,
    known: &Known<'a>,
    lines: &'a List<Line>,
) -> Result<Network, OutOfMemory>
    requires rise { Rise 0 lines.now }
    ensures nodes { IfOk result (λ network. network.nodes ≡ nodes_of (context_of known.now) lines.now) }
    ensures links { IfOk result (λ network. network.links ≡ full_links (context_of known.now) lines.now) }
    ensures faults { IfOk result (λ network.
        network.faults ≡ cut (gather (network_fault (context_of known.now)) [] lines.now)) }
{
    let mut nodes = List::new(alloc);
    let mut faults = read_nodes(alloc, known, lines, &mut nodes)?;
    let mut links = links_in(alloc, known, lines, &mut faults)?;
    let sections = sections_in(alloc, known, lines, &mut faults)?;
    place_sections(&mut links, &sections);
    let losses = losses_in(alloc, known, lines, &mut faults)?;
    place_losses(&mut links, &losses);
    Ok(Network {
        nodes,
        links,
        faults,
    })
}

/// The links of an input by their own lines, whose faults are merged into the others.
fn links_in<'a>(
    alloc: Global,
    known: &Known<'a>,
    lines: &'a List<Line>,
    faults: &mut List<LineFault>,
) -> Result<List<Link>, OutOfMemory>
    ensures links { IfOk result (λ links. links ≡ links_of (context_of known.now) lines.now) }
    ensures faults { OnOk result (faults.new
        ≡ cut (merged faults.old (cut (gather (link_fault (context_of known.now)) [] lines.now)))) }
{
    let mut links = List::new(alloc);
    let found = read_links(alloc, known, lines, &mut links)?;
    merge_faults(alloc, faults, &found)?;
    Ok(links)
}

/// The cross-sections of an input; the faults of their lines are merged into the others.
fn sections_in<'a>(
    alloc: Global,
    known: &Known<'a>,
    lines: &'a List<Line>,
    faults: &mut List<LineFault>,
) -> Result<List<OwnSection>, OutOfMemory>
    ensures sections { IfOk result (λ sections. sections ≡ sections_of (context_of known.now) lines.now) }
    ensures faults { OnOk result (faults.new
        ≡ cut (merged faults.old (cut (gather (section_fault (context_of known.now)) [] lines.now)))) }
{
    let mut sections = List::new(alloc);
    let found = read_cross_sections(alloc, known, lines, &mut sections)?;
    merge_faults(alloc, faults, &found)?;
    Ok(sections)
}

/// The losses of an input; the faults of their lines are merged into the others.
fn losses_in<'a>(
    alloc: Global,
    known: &Known<'a>,
    lines: &'a List<Line>,
    faults: &mut List<LineFault>,
) -> Result<List<OwnLosses>, OutOfMemory>
    ensures losses { IfOk result (λ losses. losses ≡ losses_of (context_of known.now) lines.now) }
    ensures faults { OnOk result (faults.new
        ≡ cut (merged faults.old (cut (gather (losses_fault (context_of known.now)) [] lines.now)))) }
{
    let mut losses = List::new(alloc);
    let found = read_losses(alloc, known, lines, &mut losses)?;
    merge_faults(alloc, faults, &found)?;
    Ok(losses)
}
