// The rule of the table, and what the split of a seat tells.
use crate::views::View;
use atomic_table::{Split, TableRule};
use phase_law::PhaseLaw;

/// The rule of the board.
pub(crate) struct BoardRule;

impl<P: PhaseLaw> TableRule<(), View<P>, P> for BoardRule {
    ghost use Rattle.node_board.specs.Rule.{IsRuled};
    ghost use Rattle.node_board.specs.Opening.{first_view};

    ghost holds = { λ key. IsRuled (P.law key) key };

    ghost first = { λ key. first_view (P.law key) key };
}

/// The splitting of a seat from the lead.
pub(crate) struct Splitting;

impl<P: PhaseLaw> Split<View<P>> for Splitting {
    ghost use Rattle.node_board.specs.Plays.{after_split, new_seat};

    ghost left = { λ v. after_split v };

    ghost right = { λ v. new_seat v };
}
