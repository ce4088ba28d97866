// Nodes and links.
use crate::text::Text;

/// A node. Junctions, outfalls and storages share one numbering, in the order of their lines.
#[derive(Debug, Drop)]
pub struct Node {
    pub name: Text,
    /// Invert elevation (within 10^10), greatest depth and initial depth (0 to 10^9), in µm.
    pub invert: i64,
    pub y_max: i64,
    pub y0: i64,
    pub kind: NodeKind,
}

/// What a node is.
#[derive(Clone, Copy, Debug, PartialEq, Eq)]
pub enum NodeKind {
    /// `surcharge` in µm above the full depth, 0 to 10^9; `pond` the ponded area in mm², 0 to 10^13.
    Junction { surcharge: i64, pond: i64 },
    Outfall { stage: Stage, gated: bool },
    Storage { shape: StoreShape },
}

/// The boundary condition of an outfall. A fixed stage is an elevation in µm, within 10^10; a tidal curve and a series
/// go by their numbers.
#[derive(Clone, Copy, Debug, PartialEq, Eq)]
pub enum Stage {
    Free,
    Normal,
    Fixed(i64),
    Tidal(u32),
    Series(u32),
}

/// The surface area of a storage by its depth: a storage curve by its number, or `a1 * depth^(halves/2) + a0` with
/// coefficients in millionths of the user's units, 0 to 10^15, and at most 6 halves.
#[derive(Clone, Copy, Debug, PartialEq, Eq)]
pub enum StoreShape {
    Tabular(u32),
    Functional { a1: i64, halves: u32, a0: i64 },
}

/// A link between two nodes, which are given by their numbers. Conduits, pumps, orifices and weirs share one
/// numbering, in the order of their lines.
#[derive(Debug, Drop)]
pub struct Link {
    pub name: Text,
    pub first: u32,
    pub second: u32,
    pub kind: LinkKind,
    pub section: Option<Section>,
}

/// What a link is.
#[derive(Clone, Copy, Debug, PartialEq, Eq)]
pub enum LinkKind {
    /// Length (10^4 to 10^11) and offsets (0 to 10^9) in µm; roughness 1,000 to 10^6 millionths; flows in cm³/s, within
    /// 10^12, where a greatest flow of 0 is none; loss coefficients 0 to 10^8 millionths.
    Conduit {
        length: i64,
        n6: i64,
        z1: i64,
        z2: i64,
        q0: i64,
        q_max: i64,
        entry6: i64,
        exit6: i64,
        avg6: i64,
        flap: bool,
    },
    /// A pump curve by its number; the depths for start and stop in µm, 0 to 10^9, 0 for none.
    Pump {
        curve: u32,
        on: bool,
        startup: i64,
        shutoff: i64,
    },
    /// The offset in µm, 0 to 10^9; the discharge coefficient 0 to 10^8 millionths.
    Orifice {
        bottom: bool,
        offset: i64,
        cd6: i64,
        flap: bool,
    },
    /// The crest's offset in µm, 0 to 10^9; the metric discharge coefficient 0 to 10^8 millionths; 0 to 2 end
    /// contractions.
    Weir {
        notch: bool,
        crest: i64,
        cd6: i64,
        flap: bool,
        contractions: i64,
    },
}

/// A cross-section: its shape, its full height in µm, 1,000 to 10^9, and the number of barrels, 1 to 100.
#[derive(Clone, Copy, Debug, PartialEq, Eq)]
pub struct Section {
    pub shape: Shape,
    pub full: i64,
    pub barrels: i64,
}

/// The shape of a cross-section. Widths in µm, 0 to 10^10; side slopes in millionths (run for rise), 0 to 10^8.
#[derive(Clone, Copy, Debug, PartialEq, Eq)]
pub enum Shape {
    RectOpen {
        width: i64,
    },
    RectClosed {
        width: i64,
    },
    Trapezoidal {
        bottom: i64,
        left6: i64,
        right6: i64,
    },
    Triangular {
        top: i64,
    },
    Circular,
}
