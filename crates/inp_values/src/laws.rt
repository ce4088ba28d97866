ghost use Rattle.std.specs.Prelude.{◌≡◌, ℕ, ℤ, List};
ghost use Rattle.inp_values.specs.CalendarDate.{IsDate};
ghost use Rattle.inp_values.specs.Clock.{IsClock};
ghost use Rattle.inp_values.specs.Duration.{IsHours, IsSeconds};
ghost use Rattle.inp_values.specs.Field.{IsWhole};

/// Law: a text has one value only of each kind.
pub fn values_are_unique()
    ensures whole { (text : List ℕ) (a b : ℕ) → IsWhole text a → IsWhole text b → a ≡ b }
    ensures clock { (text : List ℕ) (a b : ℤ) → IsClock text a → IsClock text b → a ≡ b }
    ensures date { (text : List ℕ) (a b : ℤ) → IsDate text a → IsDate text b → a ≡ b }
    ensures hours { (text : List ℕ) (a b : ℤ) → IsHours text a → IsHours text b → a ≡ b }
    ensures seconds { (text : List ℕ) (a b : ℤ) → IsSeconds text a → IsSeconds text b → a ≡ b }
{}
