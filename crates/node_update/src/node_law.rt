// The law of a node.
ghost use Rattle.std.specs.Prelude.{◌≡◌};
ghost use Rattle.node_update.specs.NodeLaws.{is_outfall_rule};

use crate::shelf::Shelf;
use storage_shapes::StoreTable;
use xsect_tables::Table;

/// The conduit that ends at an outfall: the table of its section, the height of its end there (µm), its roughness
/// (millionths), how far it falls (µm), and its length (µm).
#[derive(Debug, Drop)]
pub struct OutfallConduit {
    pub table: Table,
    pub height: i64,
    pub n6: i64,
    pub drop: i64,
    pub length: i64,
}

/// What sets the level at an outfall: its stage; or the flow of the conduit that ends there, in free fall (at the
/// critical or at the normal depth, whichever is less) or at the normal depth; or, where no conduit ends there, its
/// invert.
#[derive(Debug, Drop)]
pub enum OutfallLevel {
    AtStage,
    AtInvert,
    FreeFall(Shelf<OutfallConduit>),
    UniformFlow(Shelf<OutfallConduit>),
}

/// How a node's head follows: a junction's and a storage's by its inflow, an outfall's by its level.
///
/// `pond` is the area in mm², 0 to 10^13, over which water ponds above a full junction, 0 where none does.
#[derive(Debug, Drop)]
pub enum NodeRule {
    Junction { pond: i64 },
    Storage(Shelf<StoreTable>),
    Outfall(OutfallLevel),
}

/// What the next head of a node depends on: its rule, its invert (µm), its full height above that (µm), its top
/// (µm), the least surface area (mm²) and the tolerance of the trials (µm).
///
/// Source: Reference Manual volume II, chapter 3; the ranges are this project's profile.
#[derive(Debug, Drop)]
pub struct NodeLaw {
    pub rule: NodeRule,
    pub invert: i64,
    pub full: i64,
    pub top: i64,
    pub min_area: i64,
    pub tolerance: i64,
}

impl NodeLaw {
    /// Whether the node is an outfall.
    pub fn is_outfall(&self) -> bool
        ensures { result ≡ is_outfall_rule self.now.rule }
    {
        matches!(self.rule, NodeRule::Outfall(_))
    }
}
