// Inflows of nodes.
use crate::list::List;

/// A direct inflow of a node: scale times the series, plus the baseline times the pattern's factor, in millionths
/// of the user's flow unit, each within 10^15. Node, series and pattern go by their numbers.
#[derive(Clone, Copy, Debug, PartialEq, Eq)]
pub struct Inflow {
    pub node: u32,
    pub series: Option<u32>,
    pub scale6: i64,
    pub base6: i64,
    pub pattern: Option<u32>,
}

/// A dry weather flow of a node: a base in millionths of the user's flow unit, within 10^15, changed by each of at most
/// four patterns in turn.
#[derive(Debug, Drop)]
pub struct DryFlow {
    pub node: u32,
    pub base6: i64,
    pub patterns: List<u32>,
}
