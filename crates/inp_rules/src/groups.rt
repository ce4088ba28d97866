// The tests of rules in groups.
ghost use Rattle.std.specs.Prelude.{◌≡◌, ◌++◌, ◌∷◌, [], ◌<◌, length, get_or, set, IfOk, OnOk, option_to_list};
ghost use Rattle.inp_forms.specs.Context.{context_of};
ghost use Rattle.inp_rules.specs.Rules.{are_tests as are_tests_at, begins_group as begins_group_of};
ghost use Rattle.inp_rules.specs.Rules.{groups_of as groups_of_lines, is_or as is_or_clause, test_in as test_of_line};
ghost use Rattle.inp_rules.specs.Grouping.{groups_with, with_last, with_test};

use crate::clauses::Clause;
use crate::conditions::read_test;
use crate::order::RulePart;
use crate::rule_lines::{clause_at, part_after_line, place_of};
use inp_forms::Known;
use inp_lines::Line;
use net_types::{List, OutOfMemory, Test};
use std::alloc::Global;

/// The groups of tests of a rule by its own lines.
#[tactic(auto, unfolding(crate::specs::Rules::groups_of))]
pub(crate) fn groups_of<'a>(
    alloc: Global,
    known: &Known<'a>,
    own: &'a [Line],
) -> Result<List<List<Test>>, OutOfMemory>
    ensures { IfOk result (λ groups. groups ≡ groups_of_lines (context_of known.now) own.now) }
{
    let mut groups = List::new(alloc);
    let mut part = RulePart::Named;
    for line in own {
        add_test(alloc, known, part, line, &mut groups)?;
        part = part_after_line(part, line);
    }
    Ok(groups)
}

/// Adds the test of a line to its group, a new one or the last, if the line is a test.
fn add_test<'a>(
    alloc: Global,
    known: &Known<'a>,
    part: RulePart,
    line: &'a Line,
    groups: &mut List<List<Test>>,
) -> Result<(), OutOfMemory>
    ensures { OnOk result (groups.new ≡ groups_with (context_of known.now) part line.now groups.old) }
{
    if are_tests(place_of(part, line)) {
        add_to_group(alloc, known, line, groups)
    } else {
        Ok(())
    }
}

/// Adds the test of a line to a new group or to the last.
fn add_to_group<'a>(
    alloc: Global,
    known: &Known<'a>,
    line: &'a Line,
    groups: &mut List<List<Test>>,
) -> Result<(), OutOfMemory>
    ensures { OnOk result (groups.new ≡ with_test (context_of known.now) line.now groups.old) }
{
    let test = test_in(known, line);
    if begins_group(line) {
        groups.push(group_of(alloc, test)?)?;
        Ok(())
    } else {
        add_to_last(groups, test)
    }
}

/// The test of a line, if it is without fault.
fn test_in<'a>(known: &Known<'a>, line: &'a Line) -> Option<Test>
    ensures { result ≡ test_of_line (context_of known.now) line.now }
{
    match read_test(known, line.tokens.as_slice()) {
        Ok(test) => Some(test),
        Err(_) => None,
    }
}

/// A group of at most one test.
fn group_of(alloc: Global, test: Option<Test>) -> Result<List<Test>, OutOfMemory>
    ensures { IfOk result (λ group. group ≡ option_to_list test) }
{
    let mut group = List::new(alloc);
    match test {
        Some(test) => {
            group.push(test)?;
            Ok(group)
        }
        None => Ok(group),
    }
}

/// Adds a test, if there is one, to the last group, if there is one.
fn add_to_last(groups: &mut List<List<Test>>, test: Option<Test>) -> Result<(), OutOfMemory>
    ensures { OnOk result (groups.new ≡ with_last groups.old (option_to_list test)) }
{
    match test {
        Some(test) => push_to_last(groups, test),
        None => Ok(()),
    }
}

/// Adds a test to the last group, if there is one.
fn push_to_last(groups: &mut List<List<Test>>, test: Test) -> Result<(), OutOfMemory>
    ensures { OnOk result (groups.new ≡ with_last groups.old (test ∷ [])) }
{
    if groups.as_slice().is_empty() {
        return Ok(());
    }
    let last = groups.as_slice().len() - 1;
    push_at(groups, last, test)
}

/// Adds a test to the group at a place.
fn push_at(groups: &mut List<List<Test>>, place: usize, test: Test) -> Result<(), OutOfMemory>
    requires { place < length groups.old }
    ensures { OnOk result (groups.new ≡ set groups.old place (get_or groups.old place [] ++ test ∷ [])) }
{
    let groups = groups.as_mut_slice();
    groups[place].push(test)?;
    Ok(())
}

/// Whether a clause that stands here is a test.
fn are_tests(place: Option<RulePart>) -> bool
    ensures { result ≡ are_tests_at place }
{
    matches!(place, Some(RulePart::Tests))
}

/// Whether a test begins a group.
fn begins_group(line: &Line) -> bool
    ensures { result ≡ begins_group_of line.now }
{
    !is_or(clause_at(line))
}

fn is_or(clause: Option<Clause>) -> bool
    ensures { result ≡ is_or_clause clause }
{
    matches!(clause, Some(Clause::Or))
}
