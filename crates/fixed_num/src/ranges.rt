ghost use Rattle.std.specs.Prelude.{◌≡◌, ℤ, ◌≤ℤ◌};
ghost use Rattle.fixed_num.specs.Ranges.{IsBetween, cut_of};

/// `v` brought into `least` to `most`.
///
/// `least` is at most `most`; all three may be any numbers of 128 bits.
/// Source: this project's profile.
#[tactic(auto, using(crate::proofs::Bounds::casts))]
pub fn cut(v: i128, least: i128, most: i128) -> i128
    requires { least ≤ℤ most }
    ensures value { result ≡ cut_of v least most }
    ensures between { IsBetween least result most }
{
    if v < least {
        return least;
    }
    if v > most {
        return most;
    }
    v
}
