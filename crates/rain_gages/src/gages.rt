// The intensity of a gage.
ghost use Rattle.std.specs.Prelude.{◌≡◌, ◌*◌, ◌^◌, ◌<◌, length, pos};
ghost use Rattle.std.specs.List.{All};
ghost use Rattle.fixed_num.specs.Ranges.{IsBetween, IsRaw, IsRate, IsWithin};
ghost use Rattle.net_types.specs.Ranges.{GageInRange, SeriesInRange};
ghost use Rattle.net_types.specs.Records.{series_at};
ghost use Rattle.net_types.specs.Sound.{IsSound};
ghost use Rattle.rain_gages.specs.Rain.{rain_at as rain_of};
ghost use Rattle.rain_gages.specs.Intensity.{gage_at, gage_rate, hourly_of, hourly_value, intensity_of, rate_of};

use crate::rain::rain_at;
use fixed_num::{cut, quo};
use inp_values::{Quantity, unit_of};
use net_types::{FlowUnits, Gage, Project, Series};

/// What falls at a gage at a moment in ms since the start of the run, in nm/h, 0 to 10^10.
///
/// `gage` is the number of a gage of the project. The rain is that of the last entry of the gage's series that is not
/// later, while it is younger than the gage's interval. A volume counts as what falls in an hour at its rate. Source:
/// User's Manual, section [RAINGAGES]; rounding and range are this project's profile.
pub fn intensity(project: &Project, gage: u32, moment: i64) -> i64
    requires sound { IsSound project.now }
    requires gage { gage < length project.now.gages }
    ensures value { result ≡ intensity_of project.now gage moment }
    ensures range { IsRate result }
{
    gage_rate(project, &project.gages.as_slice()[gage as usize], moment)
}

// What falls at a gage, in nm/h.
fn gage_rate(project: &Project, gage: &Gage, moment: i64) -> i64
    requires sound { IsSound project.now }
    requires range { GageInRange gage.now }
    requires series { gage.now.series < length project.now.series }
    ensures value { result ≡ gage_rate project.now gage.now moment }
    ensures range { IsRate result }
{
    let value = series_rain(project.series.as_slice(), gage, moment);
    rate(project.options.units, hourly_value(gage, value))
}

// The value of a gage's series at a moment.
fn series_rain(series: &[Series], gage: &Gage, moment: i64) -> i64
    requires ranges { All SeriesInRange series.now }
    requires series { gage.now.series < length series.now }
    ensures value { result ≡ rain_of (series_at series.now gage.now.series).entries gage.now.interval moment }
    ensures range { IsRaw result }
{
    rain_at(
        series[gage.series as usize].entries.as_slice(),
        gage.interval,
        moment,
    )
}

// A value of a gage as an intensity of the hour.
fn hourly_value(gage: &Gage, value: i64) -> i64
    requires gage { GageInRange gage.now }
    requires value { IsRaw value }
    ensures value { result ≡ hourly_value gage.now.volume gage.now.interval value }
    ensures range { IsWithin (6 * 10 ^ 16) result }
{
    if gage.volume {
        return hourly(value, gage.interval);
    }
    value
}

// A volume that falls in an interval, as an intensity of the hour.
#[tactic(auto, using(fixed_num::proofs::Bounds::casts), unfolding(crate::specs::Intensity::hourly_of))]
pub(crate) fn hourly(volume: i64, interval: i64) -> i64
    requires volume { IsRaw volume }
    requires interval { IsBetween (pos 60_000) interval (pos 86_400_000) }
    ensures value { result ≡ hourly_of volume interval }
    ensures range { IsWithin (6 * 10 ^ 16) result }
{
    quo(volume as i128 * 3_600_000, interval as i128) as i64
}

// Millionths of the user's unit of a rate, in nm/h and brought into the range of a rate.
#[tactic(auto, using(fixed_num::proofs::Bounds::casts), unfolding(crate::specs::Intensity::rate_of))]
pub(crate) fn rate(units: FlowUnits, value6: i64) -> i64
    requires { IsWithin (6 * 10 ^ 16) value6 }
    ensures value { result ≡ rate_of units value6 }
    ensures range { IsRate result }
{
    let unit = unit_of(units, Quantity::Rate);
    let rate = quo(
        value6 as i128 * unit.num as i128,
        unit.den as i128 * 1_000_000,
    );
    cut(rate, 0, 10_000_000_000) as i64
}
