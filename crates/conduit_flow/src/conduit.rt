// A conduit.
use net_types::{Damping, Limiter};

/// A conduit as it is routed.
///
/// `z1` and `z2` are the heights of its two ends (invert of the node and offset, µm, ±2·10^10), `length` its length
/// (µm, 10^4 to 10^11), `n6` Manning's roughness in millionths (10^3 to 10^6), `q_max` its greatest flow (cm³/s, 0
/// for none, to 10^12), `entry6`, `exit6` and `avg6` its loss coefficients at the first and the second end and on the
/// way (millionths, 0 to 10^8), `flap` whether a flap gate at it or a gated outfall at its second end keeps water
/// from running back, `damping` how far its inertial terms are damped, and `limiter` by which sign its flow is held
/// to the normal flow.
///
/// Source: User's Manual, sections [CONDUITS], [LOSSES] and [OPTIONS]; the ranges are this project's profile.
#[derive(Clone, Copy, Debug)]
pub struct ConduitData {
    pub z1: i64,
    pub z2: i64,
    pub length: i64,
    pub n6: i64,
    pub q_max: i64,
    pub entry6: i64,
    pub exit6: i64,
    pub avg6: i64,
    pub flap: bool,
    pub damping: Damping,
    pub limiter: Limiter,
}
