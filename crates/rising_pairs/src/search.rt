// The search by halving.
ghost use Rattle.std.specs.Prelude.{◌≡◌};
ghost use Rattle.net_types.specs.Ranges.{IsRising};
ghost use Rattle.rising_pairs.specs.FirstAbove.{first_above, IsFirstAbove};

/// The place of the first pair whose key is greater than `key`, and the list's length where there is none.
///
/// The keys of `pairs` rise; keys and values may be any numbers. It halves the list, so that a list of a million
/// pairs costs twenty comparisons. Source: this project's profile.
pub fn first_above(pairs: &[(i64, i64)], key: i64) -> usize
    requires { IsRising pairs.now }
    ensures value { result ≡ first_above pairs.now key }
    ensures parts { IsFirstAbove pairs.now key result }
{
    pairs.partition_point(|pair| pair.0 <= key)
}
