// What the clauses of rules are for.
ghost use Rattle.std.specs.Prelude.{◌≡◌};
ghost use Rattle.inp_rules.specs.RuleLines.{is_past_tests as is_past_tests_of};
ghost use Rattle.inp_rules.specs.RuleFaults.{is_limited as is_limited_role, is_short as is_short_role};
ghost use Rattle.inp_rules.specs.RuleFaults.{least_of_role as least_items, role_of as role_of_clause};

use crate::clauses::Clause;
use crate::conditions::least_of_test;
use crate::order::RulePart;
use crate::values::text_at;
use net_types::Text;

/// What a clause is for.
#[derive(Clone, Copy, Debug, PartialEq, Eq)]
pub(crate) enum Role {
    Name,
    Test,
    Action,
    Priority,
}

/// What a clause is for: an AND is a test until the rule's THEN, and an action from then on.
pub(crate) fn role_of(part: RulePart, clause: Clause) -> Role
    ensures { result ≡ role_of_clause part clause }
{
    match clause {
        Clause::Rule => Role::Name,
        Clause::If => Role::Test,
        Clause::And => role_of_and(part),
        Clause::Or => Role::Test,
        Clause::Then => Role::Action,
        Clause::Else => Role::Action,
        Clause::Priority => Role::Priority,
    }
}

fn role_of_and(part: RulePart) -> Role
    ensures { result ≡ role_of_clause part Clause.And }
{
    if is_past_tests(part) {
        Role::Action
    } else {
        Role::Test
    }
}

/// Whether a rule has come past its tests.
pub(crate) fn is_past_tests(part: RulePart) -> bool
    ensures { result ≡ is_past_tests_of part }
{
    matches!(
        part,
        RulePart::ThenActions | RulePart::ElseActions | RulePart::Ended
    )
}

/// How many items a clause needs.
fn least_of_role(role: Role, tokens: &[Text]) -> usize
    ensures { result ≡ least_items role tokens.now }
{
    match role {
        Role::Name => 2,
        Role::Test => least_of_test(text_at(tokens, 1)),
        Role::Action => 6,
        Role::Priority => 2,
    }
}

/// Whether a clause has too few items.
pub(crate) fn is_short(role: Role, tokens: &[Text]) -> bool
    ensures { result ≡ is_short_role role tokens.now }
{
    tokens.len() < least_of_role(role, tokens)
}

/// Whether a clause is one of those of which there may be so many in all.
pub(crate) fn is_limited(role: Role) -> bool
    ensures { result ≡ is_limited_role role }
{
    matches!(role, Role::Test | Role::Action)
}
