// The conduit that ends at each node.
ghost use Rattle.std.specs.Prelude.{◌≡◌, ℕ, ◌*◌, ◌^◌, ◌<◌, ◌≤◌, length, replicate};
ghost use Rattle.std.specs.Prelude.{None as NoLink, Some as SomeLink, slice_index_or};
ghost use Rattle.std.specs.Prelude.{IfOk, IfSome};
ghost use Rattle.std.specs.List.{All};
ghost use Rattle.fixed_num.specs.Lists.{list_of};
ghost use Rattle.fixed_num.specs.Ranges.{IsElevation};
ghost use Rattle.net_types.specs.Ranges.{LinkKindInRange, SectionInRange};
ghost use Rattle.net_types.specs.Sound.{IsSound};
ghost use Rattle.node_update.specs.NodeLaws.{IsOutfallConduit};
ghost use Rattle.node_update.specs.OutfallConduits.{ending_link, found_end as end_of, kind_end as end_of_kind};

use crate::node_law::OutfallConduit;
use net_types::{Link, LinkKind, List, OutOfMemory, Project, Section};
use std::alloc::Global;
use xsect_tables::Table;

// For each node the last link that ends there, if one does, by one walk over the links.
pub(crate) fn ending_links(
    alloc: Global,
    project: &Project,
) -> Result<List<Option<u32>>, OutOfMemory>
    requires { IsSound project.now }
    ensures { IfOk result (λ list. list
        ≡ list_of (λ n. ending_link project.now.links n (length project.now.links)) (length project.now.nodes)) }
{
    let mut list = no_links(alloc, project.nodes.as_slice().len())?;
    let ends = list.as_mut_slice();
    mark_ends(ends, project.links.as_slice());
    Ok(list)
}

// No link for so many nodes.
fn no_links(alloc: Global, count: usize) -> Result<List<Option<u32>>, OutOfMemory>
    ensures { IfOk result (λ list. list ≡ replicate count NoLink) }
{
    let mut list = List::new(alloc);
    for _ in 0..count {
        list.push(None)?;
    }
    Ok(list)
}

// Notes each link at the node where it ends.
fn mark_ends(ends: &mut [Option<u32>], links: &[Link])
    requires none { (n : ℕ) → slice_index_or ends.old n NoLink ≡ NoLink }
    requires few { length links.now ≤ 20_000 }
    requires second { All (λ link. link.second < length ends.old) links.now }
    ensures count { length ends.new ≡ length ends.old }
    ensures each { (n : ℕ) → slice_index_or ends.new n NoLink ≡ ending_link links.now n (length links.now) }
{
    for l in 0..links.len() {
        ends[links[l].second as usize] = Some(l as u32);
    }
}

// What an outfall sees of the link that ends there, if it is a conduit.
pub(crate) fn found_end(project: &Project, link: Option<u32>) -> Option<OutfallConduit>
    requires sound { IsSound project.now }
    requires link { IfSome link (λ l. l < length project.now.links) }
    ensures value { result ≡ end_of project.now link }
    ensures range { IfSome result IsOutfallConduit }
{
    match link {
        Some(l) => link_end(project, l),
        None => None,
    }
}

fn link_end(project: &Project, l: u32) -> Option<OutfallConduit>
    requires sound { IsSound project.now }
    requires link { l < length project.now.links }
    ensures value { result ≡ end_of project.now (SomeLink l) }
    ensures range { IfSome result IsOutfallConduit }
{
    let link = &project.links.as_slice()[l as usize];
    let nodes = project.nodes.as_slice();
    let near = &nodes[link.first as usize];
    let far = &nodes[link.second as usize];
    kind_end(&link.kind, &link.section, near.invert, far.invert)
}

// What an outfall sees of a link of this kind and section between these inverts, in µm.
fn kind_end(
    kind: &LinkKind,
    section: &Option<Section>,
    near: i64,
    far: i64,
) -> Option<OutfallConduit>
    requires kind { LinkKindInRange kind.now }
    requires section { IfSome section.now SectionInRange }
    requires near { IsElevation near }
    requires far { IsElevation far }
    ensures value { result ≡ end_of_kind kind.now section.now near far }
    ensures range { IfSome result IsOutfallConduit }
{
    match kind {
        LinkKind::Conduit {
            length,
            n6,
            z1,
            z2,
            ..
        } => match section {
            Some(section) => Some(OutfallConduit {
                table: Table::build(section),
                height: far + *z2,
                n6: *n6,
                drop: near + *z1 - (far + *z2),
                length: *length,
            }),
            None => None,
        },
        LinkKind::Pump { .. } | LinkKind::Orifice { .. } | LinkKind::Weir { .. } => None,
    }
}
