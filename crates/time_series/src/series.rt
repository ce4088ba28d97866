// The value of a time series.
ghost use Rattle.std.specs.Prelude.{◌≡◌};
ghost use Rattle.fixed_num.specs.Ranges.{IsRaw};
ghost use Rattle.net_types.specs.Ranges.{SeriesInRange};
ghost use Rattle.time_series.specs.SeriesValues.{series_value};

use net_types::Series;
use rising_pairs::{held_reading, reading};

/// The value of a series at a moment in ms since the start of the run, in millionths of the user's unit, within
/// 10^15.
///
/// Between two entries it is on the straight line from one to the other. Outside the entries it is 0 with
/// `outside_zero`, as for an inflow, and else that of the nearest entry, as for a stage. Source: User's Manual,
/// section [TIMESERIES]; the rounding is this project's profile.
pub fn value_between(series: &Series, moment: i64, outside_zero: bool) -> i64
    requires { SeriesInRange series.now }
    ensures value { result ≡ series_value series.now.entries moment outside_zero }
    ensures range { IsRaw result }
{
    let entries = series.entries.as_slice();
    if outside_zero {
        return reading(entries, moment, 0, 0);
    }
    held_reading(entries, moment)
}
