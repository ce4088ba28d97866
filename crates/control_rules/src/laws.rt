ghost use Rattle.std.specs.Prelude.{◌≡◌, ◌↔◌, ◌≢◌, ℕ, List, Some, None, slice_get};
ghost use Rattle.control_rules.specs.Settings.{Taken, IsDecisive, decisive};
ghost use Rattle.control_rules.specs.WorkedRules.{FirstOfEqualsDecides, OrIsStronger};

/// Law: the action that decides on a link is the first of the greatest priority among all on it, and none decides only
/// where none is on it.
pub fn greatest_priority_decides()
    ensures first { (taken : List Taken) (link : ℕ) (one : Taken)
        → decisive taken link ≡ Some one → IsDecisive taken link one }
    ensures alone { (taken : List Taken) (link : ℕ) (one : Taken)
        → IsDecisive taken link one → decisive taken link ≡ Some one }
    ensures without { (taken : List Taken) (link : ℕ) → decisive taken link ≡ None
        → (k : ℕ) (one : Taken) → slice_get taken k ≡ Some one → one.action.link ≢ link }
{}

/// Law: worked examples. OR binds its tests more strongly than AND, and of two rules of one priority that act on a link
/// the first gives its setting, before one without priority.
pub fn worked_rules()
    ensures tests { OrIsStronger }
    ensures priorities { FirstOfEqualsDecides }
{}
