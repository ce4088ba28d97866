// The priority of rules.
ghost use Rattle.std.specs.Prelude.{◌≡◌};
ghost use Rattle.inp_forms.specs.Context.{context_of};
ghost use Rattle.inp_rules.specs.Actions.{priority_of};

use crate::values::{number, text_at};
use inp_forms::{Known, What};
use inp_lines::{Fault, too_few};
use inp_values::Quantity;
use net_types::Text;

/// The priority of a rule in millionths, or the clause's one fault: 203 where it has too few items, and 211 where it is
/// no number.
///
/// The first token is the clause's word, whatever it is. Source: User's Manual, section [CONTROLS].
#[tactic(auto, unfolding(crate::specs::Actions::priority_of))]
pub fn read_priority<'a>(known: &Known<'a>, tokens: &'a [Text]) -> Result<i64, Fault>
    ensures { result ≡ priority_of (context_of known.now) tokens.now }
{
    if tokens.len() < 2 {
        return Err(too_few(tokens));
    }
    number(known, What::Number(Quantity::Raw), text_at(tokens, 1), 1)
}
