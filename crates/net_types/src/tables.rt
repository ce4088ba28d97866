// Curves, time series and patterns.
use crate::list::List;
use crate::text::Text;

/// A curve: its points are pairs of millionths of the user's units, within 10^15, at least one, and their first numbers
/// rise.
#[derive(Debug, Drop)]
pub struct Curve {
    pub name: Text,
    pub kind: CurveKind,
    pub points: List<(i64, i64)>,
}

/// What a curve is for.
#[derive(Clone, Copy, Debug, PartialEq, Eq)]
pub enum CurveKind {
    Storage,
    Pump1,
    Pump2,
    Pump3,
    Pump4,
    Tidal,
}

/// A time series: pairs of a time in ms from the start of the run (within 10^13) and a value in millionths of the
/// user's unit (within 10^15), at least one, and the times rise.
#[derive(Debug, Drop)]
pub struct Series {
    pub name: Text,
    /// Each entry has a date, on its own line or from an earlier line of the series.
    pub dated: bool,
    pub entries: List<(i64, i64)>,
}

/// A time pattern and its factors, 0 to 10^8 millionths: at most 12 of months, 7 of days and 24 of hours; those that
/// are missing are 1.
#[derive(Debug, Drop)]
pub struct Pattern {
    pub name: Text,
    pub kind: PatternKind,
    pub factors6: List<i64>,
}

/// Which moments the factors of a pattern are for.
#[derive(Clone, Copy, Debug, PartialEq, Eq)]
pub enum PatternKind {
    Monthly,
    Daily,
    Hourly,
    Weekend,
}
