// The lines of rules.
ghost use Rattle.std.specs.Prelude.{◌≡◌, position};
ghost use Rattle.inp_rules.specs.Order.{part_after as part_after_clause};
ghost use Rattle.inp_rules.specs.RuleLines.{begins_rule as begins_rule_of, clause_at as clause_of_line, is_controls};
ghost use Rattle.inp_rules.specs.RuleLines.{is_rule as is_rule_clause, own_lines as own_lines_of};
ghost use Rattle.inp_rules.specs.RuleLines.{own_part as own_part_of, placed};

use crate::clauses::{Clause, clause_in};
use crate::order::{RulePart, next_part, part_after};
use crate::values::text_at;
use inp_lines::{Line, SectionName};

/// Whether lines of a section are of rules.
pub(crate) fn is_controls(section: SectionName) -> bool
    ensures { result ≡ is_controls section }
{
    matches!(section, SectionName::Controls)
}

/// The clause that a line is, by its first word alone.
#[tactic(auto, unfolding(crate::specs::RuleLines::clause_at))]
pub(crate) fn clause_at(line: &Line) -> Option<Clause>
    ensures { result ≡ clause_of_line line.now }
{
    if is_controls(line.section) {
        clause_in(text_at(line.tokens.as_slice(), 0))
    } else {
        None
    }
}

/// Whether a clause is a RULE.
fn is_rule(clause: Option<Clause>) -> bool
    ensures { result ≡ is_rule_clause clause }
{
    matches!(clause, Some(Clause::Rule))
}

/// Whether a rule begins with a line.
pub(crate) fn begins_rule(line: &Line) -> bool
    ensures { result ≡ begins_rule_of line.now }
{
    is_rule(clause_at(line))
}

/// How far a rule has come after a line.
pub(crate) fn part_after_line(part: RulePart, line: &Line) -> RulePart
    ensures { result ≡ part_after_clause part (clause_of_line line.now) }
{
    part_after(part, clause_at(line))
}

/// Where a line stands in its rule, if it may stand there.
pub(crate) fn place_of(part: RulePart, line: &Line) -> Option<RulePart>
    ensures { result ≡ placed part (clause_of_line line.now) }
{
    match clause_at(line) {
        Some(clause) => next_part(part, clause),
        None => None,
    }
}

/// How far a rule has come with all its own lines.
#[tactic(auto, unfolding(crate::specs::RuleLines::own_part))]
pub(crate) fn own_part(own: &[Line]) -> RulePart
    ensures { result ≡ own_part_of own.now }
{
    let mut part = RulePart::Named;
    for line in own {
        part = part_after_line(part, line);
    }
    part
}

/// The lines of the rule of a RULE line, of the lines after it: those up to the next RULE line.
pub(crate) fn own_lines(after: &[Line]) -> &[Line]
    ensures { result.now ≡ own_lines_of after.now }
{
    match next_rule(after) {
        Some(end) => &after[..end],
        None => after,
    }
}

/// The place of the first RULE line.
fn next_rule(after: &[Line]) -> Option<usize>
    ensures { result ≡ position begins_rule_of after.now }
{
    after.iter().position(|line| begins_rule(line))
}
