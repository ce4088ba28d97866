// The rules that lines give.
ghost use Rattle.std.specs.Prelude.{◌≡◌, ◌++◌, [], IfOk, OnOk, option_to_list};
ghost use Rattle.std.specs.List.{last_or};
ghost use Rattle.inp_lines.specs.Faults.{cut};
ghost use Rattle.inp_lines.specs.Gather.{gather};
ghost use Rattle.inp_forms.specs.Context.{context_of};
ghost use Rattle.inp_rules.specs.RuleFaults.{rule_fault};
ghost use Rattle.inp_rules.specs.Rules.{actions_of as actions_of_lines, actions_with, are_actions, good_of};
ghost use Rattle.inp_rules.specs.Rules.{groups_of as groups_of_lines, is_end, priority_with, rule_of as rule_of_lines};
ghost use Rattle.inp_rules.specs.Rules.{rule_priority, rules_of as rules_of_lines, rules_with};

use crate::actions::read_action;
use crate::faults::{RuleNames, read_faults};
use crate::groups::groups_of;
use crate::order::RulePart;
use crate::priority::read_priority;
use crate::rule_lines::{begins_rule, own_lines, part_after_line, place_of};
use inp_forms::Known;
use inp_lines::{Fault, Line, copy_token, number_names};
use net_types::{Action, LineFault, List, OutOfMemory, Rule};
use std::alloc::Global;

/// Reads the control rules that lines give, appends them, and gives the first hundred faults of their lines.
///
/// Source: User's Manual, section [CONTROLS]; what is left out of it, which line is at fault and the limits are this
/// project's profile.
pub fn read_rules<'a>(
    alloc: Global,
    known: &Known<'a>,
    lines: &'a List<Line>,
    rules: &mut List<Rule>,
) -> Result<List<LineFault>, OutOfMemory>
    ensures rules { OnOk result (rules.new ≡ rules.old ++ rules_of_lines (context_of known.now) lines.now) }
    ensures faults { IfOk result (λ faults. faults
        ≡ cut (gather (rule_fault (context_of known.now) lines.now) [] lines.now)) }
{
    let names = number_names(alloc, &RuleNames, lines)?;
    add_rules(alloc, known, lines, rules)?;
    read_faults(alloc, known, &names, lines)
}

/// Appends the rules that lines give.
#[tactic(auto, unfolding(crate::specs::Rules::rules_of))]
fn add_rules<'a>(
    alloc: Global,
    known: &Known<'a>,
    lines: &'a List<Line>,
    rules: &mut List<Rule>,
) -> Result<(), OutOfMemory>
    ensures { OnOk result (rules.new ≡ rules.old ++ rules_of_lines (context_of known.now) lines.now) }
{
    let all = lines.as_slice();
    let mut next = 1usize;
    for line in all {
        add_rule(alloc, known, line, &all[next..], rules)?;
        next += 1;
    }
    Ok(())
}

/// Appends the rule of a line, if one begins with it.
fn add_rule<'a>(
    alloc: Global,
    known: &Known<'a>,
    line: &'a Line,
    after: &'a [Line],
    rules: &mut List<Rule>,
) -> Result<(), OutOfMemory>
    ensures { OnOk result (rules.new ≡ rules.old ++ rules_with (context_of known.now) line.now after.now) }
{
    if begins_rule(line) {
        let made = rule_of(alloc, known, line, own_lines(after))?;
        rules.push(made)?;
        Ok(())
    } else {
        Ok(())
    }
}

/// The rule of a RULE line and its own lines after it.
#[tactic(auto, unfolding(crate::specs::Rules::rule_of))]
fn rule_of<'a>(
    alloc: Global,
    known: &Known<'a>,
    line: &'a Line,
    own: &'a [Line],
) -> Result<Rule, OutOfMemory>
    ensures { IfOk result (λ made. made ≡ rule_of_lines (context_of known.now) line.now own.now) }
{
    Ok(Rule {
        name: copy_token(alloc, line, 1)?,
        groups: groups_of(alloc, known, own)?,
        then_acts: actions_of(alloc, known, false, own)?,
        else_acts: actions_of(alloc, known, true, own)?,
        priority6: priority_of(known, own),
    })
}

/// The actions of a rule for when its tests hold, or those for otherwise.
#[tactic(auto, unfolding(crate::specs::Rules::actions_of))]
fn actions_of<'a>(
    alloc: Global,
    known: &Known<'a>,
    otherwise: bool,
    own: &'a [Line],
) -> Result<List<Action>, OutOfMemory>
    ensures { IfOk result (λ actions. actions ≡ actions_of_lines (context_of known.now) otherwise own.now) }
{
    let mut actions = List::new(alloc);
    let mut part = RulePart::Named;
    for line in own {
        add_action(known, otherwise, part, line, &mut actions)?;
        part = part_after_line(part, line);
    }
    Ok(actions)
}

/// Appends the action of a line, if it is one of these and not at fault.
fn add_action<'a>(
    known: &Known<'a>,
    otherwise: bool,
    part: RulePart,
    line: &'a Line,
    actions: &mut List<Action>,
) -> Result<(), OutOfMemory>
    ensures { OnOk result (actions.new ≡ actions.old ++ actions_with (context_of known.now) otherwise part line.now) }
{
    if are_actions(otherwise, place_of(part, line)) {
        push_good(read_action(known, line.tokens.as_slice()), actions)
    } else {
        Ok(())
    }
}

/// Appends an action that is read without fault.
fn push_good(read: Result<Action, Fault>, actions: &mut List<Action>) -> Result<(), OutOfMemory>
    ensures { OnOk result (actions.new ≡ actions.old ++ option_to_list (good_of read)) }
{
    match read {
        Ok(action) => {
            actions.push(action)?;
            Ok(())
        }
        Err(_) => Ok(()),
    }
}

/// Whether a clause that stands here is one of the actions for when the tests hold, or for otherwise.
fn are_actions(otherwise: bool, place: Option<RulePart>) -> bool
    ensures { result ≡ are_actions otherwise place }
{
    match place {
        Some(RulePart::ThenActions) => !otherwise,
        Some(RulePart::ElseActions) => otherwise,
        _ => false,
    }
}

/// The priority of a rule, if it has one.
#[tactic(auto, unfolding(crate::specs::Rules::rule_priority))]
fn priority_of<'a>(known: &Known<'a>, own: &'a [Line]) -> Option<i64>
    ensures { result ≡ rule_priority (context_of known.now) own.now }
{
    let mut priority6 = None;
    let mut part = RulePart::Named;
    for line in own {
        priority6 = later_priority(known, part, line, priority6);
        part = part_after_line(part, line);
    }
    priority6
}

/// The priority of a line that has one without fault, or else the one so far.
fn later_priority<'a>(
    known: &Known<'a>,
    part: RulePart,
    line: &'a Line,
    priority6: Option<i64>,
) -> Option<i64>
    ensures { result ≡ last_or priority6 (priority_with (context_of known.now) part line.now) }
{
    if is_end(place_of(part, line)) {
        match read_priority(known, line.tokens.as_slice()) {
            Ok(priority) => Some(priority),
            Err(_) => priority6,
        }
    } else {
        priority6
    }
}

/// Whether a clause that stands here ends its rule.
fn is_end(place: Option<RulePart>) -> bool
    ensures { result ≡ is_end place }
{
    matches!(place, Some(RulePart::Ended))
}
