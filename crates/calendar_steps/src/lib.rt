//! Days of the proleptic Gregorian calendar, from 1900 to 2200, and what the calendar shows at a moment of a run.
//!
//! The contract that matters is that of [`day_of`]: it gives the number of a day exactly where the calendar has that
//! day. [`civil_of`] goes the other way, and [`point_at`] gives month, weekday and time of day.
//! Days, months and leap years are defined in `specs/Calendar`, the way back in `specs/CivilDay`, and the point in
//! `specs/Moment`.
#![tactic(auto)]

mod civil;
mod laws;
mod point;
#[cfg(test)]
mod tests;

pub use civil::{Civil, civil_of, day_of};
pub use laws::{anchors, days_have_one_date};
pub use point::{CalendarPoint, point_at};
