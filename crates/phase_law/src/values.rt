/// What a link gives in a trial: its flow, the surface area that it adds at each end, and the time that a wave takes
/// along it.
///
/// `q` is the flow in cm³/s from the first end to the second, negative where water runs back, at most
/// 10^12 either way. `area1` and `area2` are mm² at the first and the second end, 0 to 5·10^12. `time` is in ms, 0 to
/// 3,600,000; a link that bounds no step has the greatest.
#[derive(Clone, Copy, Debug, PartialEq, Eq)]
pub struct Share {
    pub q: i64,
    pub area1: i64,
    pub area2: i64,
    pub time: i64,
}

/// What stays the same for a link over all trials of a step.
///
/// `q_old` is its flow at the step's start (cm³/s, ±10^12), `a_old` its middle area then (mm², 0 to
/// 10^12), `setting` its control setting in millionths (0 to 10^6) and `dt` the step's length (ms, even,
/// 0 to 3,600,000).
#[derive(Clone, Copy, Debug, PartialEq, Eq)]
pub struct LinkFixed {
    pub q_old: i64,
    pub a_old: i64,
    pub setting: i64,
    pub dt: i64,
}

/// What stays the same for a node over all trials of a step.
///
/// `h_old` is its head at the step's start (µm), `net_old` its net inflow then (cm³/s, ±3·10^16),
/// `lateral` its lateral inflow at the step's end (cm³/s, ±10^12), `stage` the water level that its
/// boundary sets (µm) and `dt` the step's length (ms, even, 0 to 3,600,000). Heads and stages are within
/// the law's head limit.
#[derive(Clone, Copy, Debug, PartialEq, Eq)]
pub struct NodeFixed {
    pub h_old: i64,
    pub net_old: i64,
    pub lateral: i64,
    pub stage: i64,
    pub dt: i64,
}

/// The next head of a node (µm), and whether it moved so little that the node counts as settled.
#[derive(Clone, Copy, Debug, PartialEq, Eq)]
pub struct NodeNext {
    pub head: i64,
    pub settled: bool,
}
