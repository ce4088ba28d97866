// What an option line sets.
use net_types::{Damping, FlowUnits, InfilKind, Limiter};

/// What an option line without a fault sets (User's Manual, section [OPTIONS]). Dates are days from 1970-01-01, times
/// and steps ms, the surface area mm², the tolerance µm, the part of the travel time millionths.
#[derive(Clone, Copy, Debug)]
pub enum Setting {
    Units(FlowUnits),
    Infiltration(InfilKind),
    StartDate(i64),
    StartTime(i64),
    EndDate(i64),
    EndTime(i64),
    ReportStep(i64),
    WetStep(i64),
    RoutingStep(i64),
    /// The part of the shortest travel time that a step takes at most; 0 for steps of one length.
    VariableStep(i64),
    /// Whether water may stand above the junctions that have an area for it.
    Ponding(bool),
    Inertia(Damping),
    NormalFlow(Limiter),
    MinArea(i64),
    Tolerance(i64),
    MaxTrials(u32),
    Threads(u32),
    /// Whether the surcharge method is EXTRAN, in whose place the slot stands.
    Extran(bool),
    /// An option that has one value alone, or none that counts.
    Fixed,
}
