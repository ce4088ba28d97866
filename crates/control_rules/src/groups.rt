// When a rule is met.
ghost use Rattle.std.specs.Prelude.{◌≡◌, ◌<◌, length, ◌-ℤ◌};
ghost use Rattle.fixed_num.specs.Lists.{number};
ghost use Rattle.std.specs.List.{All, list_any};
ghost use Rattle.net_types.specs.Records.{node_at};
ghost use Rattle.net_types.specs.Sound.{SubjectNames, TestNames};
ghost use Rattle.control_rules.specs.Conditions.{conditions_of, Fit};
ghost use Rattle.control_rules.specs.Tests.{compares as compares_by, value_of as value_of_subject};
ghost use Rattle.control_rules.specs.Tests.{is_true as is_true_test, is_met as is_met_rule};

use crate::facts::Facts;
use net_types::{List, Project, Relation, Rule, Subject, Test};

// Whether each group of the rule has a true test.
pub(crate) fn is_met(project: &Project, facts: &Facts, rule: &Rule) -> bool
    requires fit { Fit project.now (conditions_of facts.now) }
    requires tests { All (λ group. All (TestNames project.now) group) rule.now.groups }
    ensures { result ≡ is_met_rule project.now.nodes (conditions_of facts.now) rule.now }
{
    for group in rule.groups.as_slice() {
        if !has_true_test(project, facts, group) {
            return false;
        }
    }
    true
}

// Whether one of the tests is true.
fn has_true_test(project: &Project, facts: &Facts, group: &List<Test>) -> bool
    requires fit { Fit project.now (conditions_of facts.now) }
    requires tests { All (TestNames project.now) group.now }
    ensures { result ≡ list_any (is_true_test project.now.nodes (conditions_of facts.now)) group.now }
{
    for test in group.as_slice() {
        if is_true(project, facts, test) {
            return true;
        }
    }
    false
}

// Whether the test is true.
fn is_true(project: &Project, facts: &Facts, test: &Test) -> bool
    requires fit { Fit project.now (conditions_of facts.now) }
    requires test { TestNames project.now test.now }
    ensures { result ≡ is_true_test project.now.nodes (conditions_of facts.now) test.now }
{
    let value = value_of(project, facts, &test.subject);
    compares(&test.relation, value, test.value as i128)
}

// The stored value of what a test looks at.
fn value_of(project: &Project, facts: &Facts, subject: &Subject) -> i128
    requires fit { Fit project.now (conditions_of facts.now) }
    requires named { SubjectNames project.now subject.now }
    ensures { result ≡ value_of_subject project.now.nodes (conditions_of facts.now) subject.now }
{
    match subject {
        Subject::NodeDepth(node) => depth_of(project, facts, *node),
        Subject::NodeHead(node) => facts.heads[*node as usize] as i128,
        Subject::NodeInflow(node) => facts.inflows[*node as usize] as i128,
        Subject::LinkFlow(link) => facts.flows[*link as usize] as i128,
        Subject::LinkSetting(link) => facts.settings[*link as usize] as i128,
        Subject::Elapsed => facts.elapsed as i128,
        Subject::ClockTime => facts.at.ms_of_day as i128,
        Subject::Month => facts.at.month as i128,
        Subject::Weekday => facts.at.weekday as i128,
    }
}

// How far the head of a node stands above its invert, in µm.
fn depth_of(project: &Project, facts: &Facts, node: u32) -> i128
    requires fit { Fit project.now (conditions_of facts.now) }
    requires named { node < length project.now.nodes }
    ensures { result ≡ number facts.now.heads.now node -ℤ (node_at project.now.nodes node).invert }
{
    let place = node as usize;
    facts.heads[place] as i128 - project.nodes.as_slice()[place].invert as i128
}

// Whether the first number stands in the relation to the second.
fn compares(relation: &Relation, a: i128, b: i128) -> bool
    ensures { result ≡ compares_by relation.now a b }
{
    match relation {
        Relation::Eq => a == b,
        Relation::Ne => a != b,
        Relation::Lt => a < b,
        Relation::Le => a <= b,
        Relation::Gt => a > b,
        Relation::Ge => a >= b,
    }
}
