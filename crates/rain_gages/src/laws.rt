// Laws of definitions.
ghost use Rattle.std.specs.Prelude.{◌≡◌, List, ℤ};
ghost use Rattle.net_types.specs.Ranges.{IsRising};
ghost use Rattle.rain_gages.specs.Rain.{rain_at, IsRain};

/// Law: the rain of a series is the value of its last entry that is not later, while the entry is younger than the
/// interval, and else 0; it is one only.
pub fn rain_is_of_the_last_entry()
    ensures is { (entries : List (ℤ × ℤ)) (interval moment : ℤ) → IsRising entries
        → IsRain entries interval moment (rain_at entries interval moment) }
    ensures one { (entries : List (ℤ × ℤ)) (interval moment value : ℤ) → IsRising entries
        → IsRain entries interval moment value → value ≡ rain_at entries interval moment }
{}
