// The laws of outcomes.
ghost use Rattle.std.specs.Prelude.{◌≡◌, List as Sequence, ℕ, Option as Maybe};
ghost use Rattle.command_words.specs.declared.command.Command.{Command as CommandOf};
ghost use Rattle.swmm_top.specs.Outcome.{Outcome, IsOutcome};

/// The same words and bytes have one outcome.
pub fn outcome_is_unique()
    ensures { (command : Maybe CommandOf) (input hotstart : Sequence ℕ) (one other : Outcome)
        → IsOutcome command input hotstart one → IsOutcome command input hotstart other → one ≡ other }
{}

/// All words and bytes have an outcome.
pub fn outcome_exists()
    ensures { (command : Maybe CommandOf) (input hotstart : Sequence ℕ)
        → (given : Outcome) × IsOutcome command input hotstart given }
{}
