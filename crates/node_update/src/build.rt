// The laws of the nodes of a project.
ghost use Rattle.std.specs.Prelude.{◌≡◌, ◌*◌, ◌^◌, ◌<◌, length, IfOk, IfSome, IsTrue, pos, ℤ, ◌≤ℤ◌, ◌+ℤ◌};
ghost use Rattle.std.specs.List.{All};
ghost use Rattle.fixed_num.specs.Lists.{list_of};
ghost use Rattle.fixed_num.specs.Ranges.{IsBetween, IsDepth, IsElevation, IsFullHeight, IsNodeArea};
ghost use Rattle.net_types.specs.Ranges.{NodeKindInRange, OptionsInRange, StoreShapeInRange};
ghost use Rattle.net_types.specs.Sound.{IsSound, NodeKindNames, StoreShapeNames};
ghost use Rattle.node_update.specs.NodeLaws.{IsNodeLaw, IsNodeRule, IsOutfallConduit, IsOutfallLevel};
ghost use Rattle.node_update.specs.NodeLaws.{free_level as free_level_of, level_of, normal_level as normal_level_of};
ghost use Rattle.node_update.specs.NodeLaws.{node_law_of, ponded_area_of, room_of, rule_of, store_units_of};
ghost use Rattle.node_update.specs.OutfallConduits.{ending_link, found_end as end_of};
ghost use Rattle.project_check.specs.Faultless.{IsFaultless};
ghost use Rattle.project_check.specs.FullHeight.{full_height_of};
ghost use Rattle.project_check.specs.Network.{is_storage_kind};
ghost use Rattle.storage_shapes.specs.ShapeArea.{AreStoreUnits, shape_area_of};
ghost use Rattle.storage_shapes.specs.StoreTable.{IsStoreTable, table_of};

use crate::ends::{ending_links, found_end};
use crate::node_law::{NodeLaw, NodeRule, OutfallConduit, OutfallLevel};
use crate::shelf::Shelf;
use inp_values::{Quantity, unit_of};
use net_types::{FlowUnits, List, NodeKind, Options, OutOfMemory, Project, Stage, StoreShape};
use project_check::full_heights;
use std::alloc::Global;
use storage_shapes::{StoreTable, StoreUnits};

impl NodeLaw {
    /// The law of a node of a faultless project, by its number.
    ///
    /// A junction's top lies its surcharge depth above its full height, and 10^9 µm above that where it ponds; a
    /// storage has a table of its shape; a free or a normal outfall goes by the conduit that ends there. The only
    /// error is want of memory. `node_laws` gives the laws of all nodes by one walk over the links.
    /// Source: Reference Manual volume II, chapter 3.
    pub fn build(alloc: Global, project: &Project, node: u32) -> Result<NodeLaw, OutOfMemory>
        requires faultless { IsFaultless project.now }
        requires node { node < length project.now.nodes }
        ensures value { IfOk result (λ law. law ≡ node_law_of project.now node) }
        ensures range { IfOk result IsNodeLaw }
    {
        let heights = full_heights(alloc, project)?;
        let ends = ending_links(alloc, project)?;
        law_at(
            alloc,
            project,
            heights.as_slice(),
            ends.as_slice(),
            node as usize,
        )
    }
}

/// The laws of all nodes of a faultless project, in their order. The only error is want of memory.
pub fn node_laws(alloc: Global, project: &Project) -> Result<List<NodeLaw>, OutOfMemory>
    requires faultless { IsFaultless project.now }
    ensures value { IfOk result (λ laws. laws ≡ list_of (node_law_of project.now) (length project.now.nodes)) }
    ensures range { IfOk result (All IsNodeLaw) }
{
    let heights = full_heights(alloc, project)?;
    let ends = ending_links(alloc, project)?;
    let heights = heights.as_slice();
    let ends = ends.as_slice();
    let count = project.nodes.as_slice().len();
    let mut laws = List::new(alloc);
    for n in 0..count {
        laws.push(law_at(alloc, project, heights, ends, n)?)?;
    }
    Ok(laws)
}

// The law of a node, from the full heights of all and the links that end at them.
fn law_at(
    alloc: Global,
    project: &Project,
    heights: &[i64],
    ends: &[Option<u32>],
    n: usize,
) -> Result<NodeLaw, OutOfMemory>
    requires faultless { IsFaultless project.now }
    requires heights { heights.now ≡ list_of (full_height_of project.now) (length project.now.nodes) }
    requires ends { ends.now
        ≡ list_of (λ k. ending_link project.now.links k (length project.now.links)) (length project.now.nodes) }
    requires node { n < length project.now.nodes }
    ensures value { IfOk result (λ law. law ≡ node_law_of project.now n) }
    ensures range { IfOk result IsNodeLaw }
{
    let node = &project.nodes.as_slice()[n];
    let rule = node_rule(alloc, project, &node.kind, node.y_max, ends[n])?;
    let full = heights[n];
    Ok(NodeLaw {
        rule,
        invert: node.invert,
        full,
        top: node.invert + full + room(&node.kind, &project.options),
        min_area: project.options.min_area,
        tolerance: project.options.tolerance,
    })
}

// How far above its full height the head of a node of this kind may go, in µm.
fn room(kind: &NodeKind, options: &Options) -> i64
    requires kind { NodeKindInRange kind.now }
    ensures value { result ≡ room_of kind.now options.now }
    ensures range { IsDepth result }
{
    match kind {
        NodeKind::Junction { surcharge, pond } => {
            if ponded_area(options, *pond) > 0 {
                return 1_000_000_000;
            }
            *surcharge
        }
        NodeKind::Outfall { .. } | NodeKind::Storage { .. } => 0,
    }
}

// The area over which a junction ponds, in mm², 0 for none.
fn ponded_area(options: &Options, pond: i64) -> i64
    requires { IsNodeArea pond }
    ensures value { result ≡ ponded_area_of options.now pond }
    ensures range { IsNodeArea result }
{
    if options.ponding { pond } else { 0 }
}

// The rule of a node of this kind and greatest depth, at which this link ends.
fn node_rule(
    alloc: Global,
    project: &Project,
    kind: &NodeKind,
    y_max: i64,
    link: Option<u32>,
) -> Result<NodeRule, OutOfMemory>
    requires sound { IsSound project.now }
    requires kind { NodeKindInRange kind.now }
    requires names { NodeKindNames project.now kind.now }
    requires depth { IsDepth y_max }
    requires deep { IsTrue (is_storage_kind kind.now) → pos 1_000 ≤ℤ y_max }
    requires link { IfSome link (λ l. l < length project.now.links) }
    ensures value { IfOk result (λ rule. rule ≡ rule_of project.now kind.now y_max (end_of project.now link)) }
    ensures range { IfOk result IsNodeRule }
{
    match kind {
        NodeKind::Junction { pond, .. } => Ok(NodeRule::Junction {
            pond: ponded_area(&project.options, *pond),
        }),
        NodeKind::Storage { shape } => Ok(NodeRule::Storage(store_table(
            alloc, project, shape, y_max,
        )?)),
        NodeKind::Outfall { stage, .. } => {
            Ok(NodeRule::Outfall(outfall_level(alloc, project, stage, link)?))
        }
    }
}

// The table of a storage of this shape and full depth.
fn store_table(
    alloc: Global,
    project: &Project,
    shape: &StoreShape,
    full: i64,
) -> Result<Shelf<StoreTable>, OutOfMemory>
    requires sound { IsSound project.now }
    requires range { StoreShapeInRange shape.now }
    requires names { StoreShapeNames project.now shape.now }
    requires full { IsFullHeight full }
    ensures value { IfOk result (λ table. table
        ≡ table_of (shape_area_of project.now.curves (store_units_of project.now.options.units) shape.now) full) }
    ensures range { IfOk result IsStoreTable }
{
    let units = store_units(project.options.units);
    Shelf::new(alloc, StoreTable::build(project, &units, shape, full))
}

// The units of depths and surface areas of storages.
fn store_units(units: FlowUnits) -> StoreUnits
    ensures value { result ≡ store_units_of units }
    ensures units { AreStoreUnits result }
{
    StoreUnits {
        depth: unit_of(units, Quantity::Depth),
        area: unit_of(units, Quantity::NodeArea),
    }
}

// What sets the level at an outfall of this stage, at which this link ends. The table of its section is made only where
// the level goes by it.
fn outfall_level(
    alloc: Global,
    project: &Project,
    stage: &Stage,
    link: Option<u32>,
) -> Result<OutfallLevel, OutOfMemory>
    requires sound { IsSound project.now }
    requires link { IfSome link (λ l. l < length project.now.links) }
    ensures value { IfOk result (λ level. level ≡ level_of stage.now (end_of project.now link)) }
    ensures range { IfOk result IsOutfallLevel }
{
    match stage {
        Stage::Free => free_level(alloc, found_end(project, link)),
        Stage::Normal => normal_level(alloc, found_end(project, link)),
        Stage::Fixed(_) | Stage::Tidal(_) | Stage::Series(_) => Ok(OutfallLevel::AtStage),
    }
}

// The level of a free outfall.
fn free_level(alloc: Global, conduit: Option<OutfallConduit>) -> Result<OutfallLevel, OutOfMemory>
    requires { IfSome conduit IsOutfallConduit }
    ensures value { IfOk result (λ level. level ≡ free_level_of conduit) }
    ensures range { IfOk result IsOutfallLevel }
{
    match conduit {
        Some(conduit) => Ok(OutfallLevel::FreeFall(Shelf::new(alloc, conduit)?)),
        None => Ok(OutfallLevel::AtInvert),
    }
}

// The level of a normal outfall.
fn normal_level(alloc: Global, conduit: Option<OutfallConduit>) -> Result<OutfallLevel, OutOfMemory>
    requires { IfSome conduit IsOutfallConduit }
    ensures value { IfOk result (λ level. level ≡ normal_level_of conduit) }
    ensures range { IfOk result IsOutfallLevel }
{
    match conduit {
        Some(conduit) => Ok(OutfallLevel::UniformFlow(Shelf::new(alloc, conduit)?)),
        None => Ok(OutfallLevel::AtInvert),
    }
}
