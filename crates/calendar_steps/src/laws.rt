ghost use Rattle.std.specs.Prelude.{◌≡◌, ℤ, pos, neg_ℤ};
ghost use Rattle.calendar_steps.specs.Calendar.{day_number, IsRealDay};
ghost use Rattle.calendar_steps.specs.CivilDay.{civil_on, IsCivilOf};
ghost use Rattle.calendar_steps.specs.Moment.{weekday_on};
ghost use Rattle.calendar_steps.specs.declared.civil.Civil.{Civil};

/// Law: a number of a day has one date alone, which is the one that [`civil_of`](crate::civil_of) gives.
pub fn days_have_one_date()
    ensures one { (number : ℤ) (civil : Civil) → IsCivilOf number civil → civil ≡ civil_on number }
    ensures back { (civil : Civil) → IsRealDay civil.year civil.month civil.day
        → civil_on (day_number civil.year civil.month civil.day) ≡ civil }
{}

/// Law: the numbers of four days, and that 1970-01-01 was a Thursday.
pub fn anchors()
    ensures first { day_number 1900 1 1 ≡ neg_ℤ (pos 25_567) }
    ensures epoch { day_number 1970 1 1 ≡ pos 0 }
    ensures leap_day { day_number 2000 2 29 ≡ pos 11_016 }
    ensures last { day_number 2200 12 31 ≡ pos 84_370 }
    ensures thursday { weekday_on (pos 0) ≡ 5 }
{}
