// What the rules see at a moment.
use calendar_steps::CalendarPoint;

/// What the rules of a project see at a moment of a run.
#[derive(Clone, Copy, Debug)]
pub struct Facts<'a> {
    /// The head of each node, in µm.
    pub heads: &'a [i64],
    /// The inflow of each node, in cm³/s: what the links bring it, and its lateral inflow where that is positive.
    pub inflows: &'a [i64],
    /// The flow of each link, in cm³/s.
    pub flows: &'a [i64],
    /// The setting of each link, in millionths.
    pub settings: &'a [i64],
    /// The time since the start of the run, in ms.
    pub elapsed: i64,
    /// What the calendar shows.
    pub at: CalendarPoint,
}
