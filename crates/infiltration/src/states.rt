// The state of infiltration.

/// The state of the modified Horton method: the water taken so far above what the least rate takes, in nm, which drying
/// lessens.
///
/// Source: Reference Manual volume I, chapter 4.
#[derive(Clone, Copy, Debug, PartialEq, Eq)]
pub struct HortonState {
    pub above: i64,
}

/// The state of the curve number method: the room that is left in the soil, the room at the start of the rain event,
/// the rain of the event and what the soil has taken of it, all in nm, and the time since the last rain, in ms.
///
/// Source: Reference Manual volume I, chapter 4.
#[derive(Clone, Copy, Debug, PartialEq, Eq)]
pub struct CurveState {
    pub room: i64,
    pub event_room: i64,
    pub rain: i64,
    pub taken: i64,
    pub dry: i64,
}

/// The state of infiltration of a subcatchment, by the infiltration method of the project.
#[derive(Clone, Copy, Debug, PartialEq, Eq)]
pub enum InfilState {
    Horton(HortonState),
    Number(CurveState),
}
