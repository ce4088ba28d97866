// What the links of a project have at each node, by one walk over the links.
ghost use Rattle.std.specs.Prelude.{◌≡◌, ℕ, ◌+◌, ◌*◌, ◌^◌, ◌≤◌, ◌<◌, ◌==◌, if◌then◌else◌};
ghost use Rattle.std.specs.Prelude.{List as Sequence, length, replicate, IfOk, IfSome, pos};
ghost use Rattle.std.specs.List.{All};
ghost use Rattle.fixed_num.specs.Lists.{list_of};
ghost use Rattle.fixed_num.specs.Ranges.{IsBetween, IsDepth};
ghost use Rattle.net_types.specs.Ranges.{LinkInRange, LinkKindInRange, SectionInRange};
ghost use Rattle.net_types.specs.Sound.{IsSound};
ghost use Rattle.project_check.specs.Ends.{ends_of, no_ends, node_ends_at, with_end, with_link};
ghost use Rattle.project_check.specs.FullHeight.{conduit_height, first_offset, full_height_of};
ghost use Rattle.project_check.specs.FullHeight.{kind_height, second_offset, section_height};

use net_types::{Link, LinkKind, List, NodeKind, OutOfMemory, Project, Section};
use std::alloc::Global;

/// What the links of a project have at a node: the ends of links there, one with equal ends counting twice; the links
/// that begin there; and the highest top of its conduits above its invert, in µm, 0 to 2·10^9.
#[derive(Clone, Copy, Debug, PartialEq, Eq)]
pub struct NodeEnds {
    pub ends: u32,
    pub begins: u32,
    pub top: i64,
}

/// What the links of a project have at each of its nodes. The only error is want of memory.
pub fn node_ends(alloc: Global, project: &Project) -> Result<List<NodeEnds>, OutOfMemory>
    requires { IsSound project.now }
    ensures count { IfOk result (λ list. length list ≡ length project.now.nodes) }
    ensures each { IfOk result
        (λ list. (n : ℕ) → n < length project.now.nodes → node_ends_at list n ≡ ends_of project.now.links n) }
    ensures tops { IfOk result (λ list. (n : ℕ) → IsBetween (pos 0) (node_ends_at list n).top (pos (2 * 10 ^ 9))) }
{
    let mut list = room(alloc, project.nodes.as_slice().len())?;
    let ends = list.as_mut_slice();
    add_links(ends, project.links.as_slice());
    Ok(list)
}

/// The full height of each node of a project above its invert, in µm, 0 to 2·10^9: that of a junction is the greater of
/// its greatest depth and the highest top of its conduits. The only error is want of memory.
///
/// Source: Reference Manual volume II, chapter 3.
pub fn full_heights(alloc: Global, project: &Project) -> Result<List<i64>, OutOfMemory>
    requires { IsSound project.now }
    ensures { IfOk result (λ heights. heights ≡ list_of (full_height_of project.now) (length project.now.nodes)) }
{
    let ends = node_ends(alloc, project)?;
    let nodes = project.nodes.as_slice();
    let ends = ends.as_slice();
    let count = nodes.len().min(ends.len());
    let mut heights = List::new(alloc);
    for n in 0..count {
        let node = &nodes[n];
        heights.push(kind_height(&node.kind, node.y_max, ends[n].top))?;
    }
    Ok(heights)
}

/// The full height of a node of a kind.
pub(crate) fn kind_height(kind: &NodeKind, y_max: i64, highest: i64) -> i64
    ensures { result ≡ kind_height kind.now y_max highest }
{
    match kind {
        NodeKind::Junction { .. } => y_max.max(highest),
        NodeKind::Outfall { .. } | NodeKind::Storage { .. } => y_max,
    }
}

// Room for so many nodes, at which there are no links.
fn room(alloc: Global, count: usize) -> Result<List<NodeEnds>, OutOfMemory>
    ensures { IfOk result (λ list. list ≡ replicate count no_ends) }
{
    let mut list = List::new(alloc);
    for _ in 0..count {
        list.push(NodeEnds {
            ends: 0,
            begins: 0,
            top: 0,
        })?;
    }
    Ok(list)
}

// Adds the ends of all links to those of their nodes.
fn add_links(ends: &mut [NodeEnds], links: &[Link])
    requires empty { (n : ℕ) → node_ends_at ends.old n ≡ no_ends }
    requires few { length links.now ≤ 20_000 }
    requires ranges { All LinkInRange links.now }
    requires first { All (λ link. link.first < length ends.old) links.now }
    requires second { All (λ link. link.second < length ends.old) links.now }
    ensures { (n : ℕ) → node_ends_at ends.new n ≡ ends_of links.now n }
{
    for link in links {
        add_link(ends, link);
    }
}

// Adds the ends of a link to those of its nodes.
fn add_link(ends: &mut [NodeEnds], link: &Link)
    requires few { (n : ℕ) → (node_ends_at ends.old n).ends ≤ 39_998 }
    requires begins { (n : ℕ) → (node_ends_at ends.old n).begins ≤ 39_998 }
    requires range { LinkInRange link.now }
    requires first { link.now.first < length ends.old }
    requires second { link.now.second < length ends.old }
    ensures { (n : ℕ) → node_ends_at ends.new n ≡ with_link (node_ends_at ends.old n) link.now n }
{
    let full = conduit_height(&link.kind, &link.section);
    add_end(ends, link.first, 1, first_offset(&link.kind) + full);
    add_end(ends, link.second, 0, second_offset(&link.kind) + full);
}

// Adds an end to those of its node: it begins so many links there, and has this top.
fn add_end(ends: &mut [NodeEnds], node: u32, begins: u32, top: i64)
    requires node { node < length ends.old }
    requires few { (n : ℕ) → (node_ends_at ends.old n).ends ≤ 39_999 }
    requires few_begins { (n : ℕ) → (node_ends_at ends.old n).begins ≤ 39_999 }
    requires begins { begins ≤ 1 }
    ensures { (n : ℕ) → node_ends_at ends.new n
        ≡ (if n == node then with_end (node_ends_at ends.old n) begins top else node_ends_at ends.old n) }
{
    let place = node as usize;
    let at = ends[place];
    ends[place] = NodeEnds {
        ends: at.ends + 1,
        begins: at.begins + begins,
        top: at.top.max(top),
    };
}

// The full height of a conduit's section, in µm; 0 of another link.
fn conduit_height(kind: &LinkKind, section: &Option<Section>) -> i64
    requires { IfSome section.now SectionInRange }
    ensures value { result ≡ conduit_height kind.now section.now }
    ensures range { IsDepth result }
{
    match kind {
        LinkKind::Conduit { .. } => section_height(section),
        _ => 0,
    }
}

// The full height of a section, in µm.
fn section_height(section: &Option<Section>) -> i64
    requires { IfSome section.now SectionInRange }
    ensures value { result ≡ section_height section.now }
    ensures range { IsDepth result }
{
    match section {
        Some(section) => section.full,
        None => 0,
    }
}

// The offset of a conduit at its first end, in µm; 0 of another link.
fn first_offset(kind: &LinkKind) -> i64
    requires { LinkKindInRange kind.now }
    ensures value { result ≡ first_offset kind.now }
    ensures range { IsDepth result }
{
    match kind {
        LinkKind::Conduit { z1, .. } => *z1,
        _ => 0,
    }
}

// The offset of a conduit at its second end, in µm; 0 of another link.
fn second_offset(kind: &LinkKind) -> i64
    requires { LinkKindInRange kind.now }
    ensures value { result ≡ second_offset kind.now }
    ensures range { IsDepth result }
{
    match kind {
        LinkKind::Conduit { z2, .. } => *z2,
        _ => 0,
    }
}
