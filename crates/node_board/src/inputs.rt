use phase_law::{LinkFixed, NodeFixed};

/// What a link is asked with: what stays the same over the trials of a step, whether the trial is the first of its
/// step, the heads at its first and second end (µm), and its flow in the last trial (cm³/s).
#[derive(Clone, Copy, Debug, PartialEq, Eq)]
pub struct LinkInput {
    pub fixed: LinkFixed,
    pub first: bool,
    pub near: i64,
    pub far: i64,
    pub last: i64,
}

/// What a node gets of its links: inflow and outflow (cm³/s) and area (mm²).
#[derive(Clone, Copy, Debug, PartialEq, Eq)]
pub struct Sums {
    pub inflow: i64,
    pub outflow: i64,
    pub area: i64,
}

/// What a node is asked with: what stays the same over the trials of a step, whether the trial is the first of its
/// step, the sums of its links, and its head in the last trial (µm).
#[derive(Clone, Copy, Debug, PartialEq, Eq)]
pub struct NodeInput {
    pub fixed: NodeFixed,
    pub first: bool,
    pub sums: Sums,
    pub last: i64,
}
