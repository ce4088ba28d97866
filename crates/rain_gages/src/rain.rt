// The value of a rain series.
ghost use Rattle.std.specs.Prelude.{◌≡◌, ◌^◌, length, pos, ◌≤ℤ◌};
ghost use Rattle.std.specs.List.{All};
ghost use Rattle.fixed_num.specs.Ranges.{IsBetween, IsRaw};
ghost use Rattle.net_types.specs.Ranges.{EntryInRange, IsRising};
ghost use Rattle.rain_gages.specs.Rain.{rain_at, young_value};

use rising_pairs::first_above;

// The value of the last entry up to a moment, while the entry is younger than the interval, and else 0.
pub(crate) fn rain_at(entries: &[(i64, i64)], interval: i64, moment: i64) -> i64
    requires rising { IsRising entries.now }
    requires ranges { All EntryInRange entries.now }
    ensures value { result ≡ rain_at entries.now interval moment }
    ensures range { IsRaw result }
{
    let later = first_above(entries, moment);
    if later == 0 {
        return 0;
    }
    young_value(entries[later - 1], interval, moment)
}

// What an entry gives at a moment that is not before it.
fn young_value(entry: (i64, i64), interval: i64, moment: i64) -> i64
    requires { IsRaw entry.1 }
    ensures value { result ≡ young_value entry interval moment }
    ensures range { IsRaw result }
{
    if moment as i128 - (entry.0 as i128) < interval as i128 {
        return entry.1;
    }
    0
}
