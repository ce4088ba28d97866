// The order of the clauses of rules.
ghost use Rattle.std.specs.Prelude.{◌≡◌};
ghost use Rattle.inp_rules.specs.Order.{after_and, after_else, after_if, after_priority, after_tests};
ghost use Rattle.inp_rules.specs.Order.{next_of, part_after as part_after_clause};

use crate::clauses::Clause;

/// How far a rule has come: no rule has begun, it has its name, tests, the actions for when they hold, those for when
/// they do not, or its priority, with which it ends.
#[derive(Clone, Copy, Debug, PartialEq, Eq)]
pub enum RulePart {
    Outside,
    Named,
    Tests,
    ThenActions,
    ElseActions,
    Ended,
}

/// How far a rule has come with a clause more, if the clause may stand there.
///
/// Source: User's Manual, section [CONTROLS].
pub fn next_part(part: RulePart, clause: Clause) -> Option<RulePart>
    ensures { result ≡ next_of part clause }
{
    match clause {
        Clause::Rule => Some(RulePart::Named),
        Clause::If => with_if(part),
        Clause::And => with_and(part),
        Clause::Or => with_or(part, RulePart::Tests),
        Clause::Then => with_or(part, RulePart::ThenActions),
        Clause::Else => with_else(part),
        Clause::Priority => with_priority(part),
    }
}

/// How far a rule has come after a line: a line that is no clause, or a clause out of sequence, changes nothing.
pub fn part_after(part: RulePart, clause: Option<Clause>) -> RulePart
    ensures { result ≡ part_after_clause part clause }
{
    match clause {
        None => part,
        Some(clause) => match next_part(part, clause) {
            Some(next) => next,
            None => part,
        },
    }
}

/// The first test follows the name.
fn with_if(part: RulePart) -> Option<RulePart>
    ensures { result ≡ after_if part }
{
    match part {
        RulePart::Named => Some(RulePart::Tests),
        _ => None,
    }
}

/// A further test, or a further action of either list.
fn with_and(part: RulePart) -> Option<RulePart>
    ensures { result ≡ after_and part }
{
    match part {
        RulePart::Tests => Some(RulePart::Tests),
        RulePart::ThenActions => Some(RulePart::ThenActions),
        RulePart::ElseActions => Some(RulePart::ElseActions),
        _ => None,
    }
}

/// What follows tests.
fn with_or(part: RulePart, next: RulePart) -> Option<RulePart>
    ensures { result ≡ after_tests part next }
{
    match part {
        RulePart::Tests => Some(next),
        _ => None,
    }
}

/// The other actions.
fn with_else(part: RulePart) -> Option<RulePart>
    ensures { result ≡ after_else part }
{
    match part {
        RulePart::ThenActions => Some(RulePart::ElseActions),
        _ => None,
    }
}

/// The priority.
fn with_priority(part: RulePart) -> Option<RulePart>
    ensures { result ≡ after_priority part }
{
    match part {
        RulePart::ThenActions => Some(RulePart::Ended),
        RulePart::ElseActions => Some(RulePart::Ended),
        _ => None,
    }
}
