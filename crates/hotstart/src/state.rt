// A state of a run as a hotstart keeps it.
use infiltration::InfilState;
use net_types::{InfilKind, List};

/// A state of a run from which a later run can go on.
#[derive(Debug, Drop)]
pub struct HotState {
    /// The infiltration method of the subcatchments, modified Horton where there is none.
    pub kind: InfilKind,
    /// The head of each node, in µm.
    pub heads: List<i64>,
    /// The flow of each link, in cm³/s.
    pub flows: List<i64>,
    /// The setting of each link, in millionths.
    pub settings: List<i64>,
    /// The least travel time of a wave along a link, in ms.
    pub least: i64,
    /// The state of each subcatchment.
    pub subs: List<HotSub>,
}

/// The state of a subcatchment.
#[derive(Clone, Copy, Debug, PartialEq, Eq)]
pub struct HotSub {
    /// The depths on the pervious part, on the impervious part without storage and on the one with storage, in nm.
    pub depths: [i64; 3],
    /// The flow of the last runoff step, in cm³/s.
    pub flow: i64,
    /// The state of its infiltration.
    pub infil: InfilState,
}
