// The faults of lines of rules.
ghost use Rattle.std.specs.Prelude.{◌≡◌, ◌≤◌, ◌++◌, [], length, is_none, IfOk, OnOk};
ghost use Rattle.inp_lines.specs.Faults.{cut};
ghost use Rattle.inp_lines.specs.Gather.{fault_found, gather};
ghost use Rattle.inp_lines.specs.Names.{defined, number_in};
ghost use Rattle.inp_lines.specs.Numbers.{numbers_of};
ghost use Rattle.inp_forms.specs.Context.{context_of};
ghost use Rattle.inp_rules.specs.Order.{next_of};
ghost use Rattle.inp_rules.specs.RuleFaults.{clause_fault as clause_fault_of, error_of, fault_by_clause, fault_with};
ghost use Rattle.inp_rules.specs.RuleFaults.{first_fault as first_of, gives_piece as gives_piece_of, is_over};
ghost use Rattle.inp_rules.specs.RuleFaults.{is_piece as is_piece_of, is_repeated, item_fault as item_fault_of};
ghost use Rattle.inp_rules.specs.RuleFaults.{name_fault as name_fault_of, name_in as name_of_tokens, pieces_after};
ghost use Rattle.inp_rules.specs.RuleFaults.{role_of as role_of_clause, rule_fault, rule_name};
ghost use Rattle.inp_rules.specs.RuleLines.{clause_at as clause_of_line, is_controls, own_lines as own_lines_of};
ghost use Rattle.std.specs.Prelude.{option_map, Some as Found};

use crate::actions::read_action;
use crate::clauses::Clause;
use crate::conditions::read_test;
use crate::order::{RulePart, next_part};
use crate::priority::read_priority;
use crate::roles::{Role, is_limited, is_past_tests, is_short, role_of};
use crate::rule_lines::{
    begins_rule, clause_at, is_controls, own_lines, own_part, part_after_line,
};
use inp_forms::Known;
use inp_lines::{
    Fault, Kind, Line, Names, Naming, add_fault, count_line, fault_of_kind, is_too_long,
    naming_of_line, too_few,
};
use net_types::{FaultKind, LineFault, List, OutOfMemory, Text};
use std::alloc::Global;

/// The most tests and actions of all rules.
const MOST_PIECES: u32 = 1_000_000;

/// The names of rules.
#[derive(Clone, Copy, Debug)]
pub(crate) struct RuleNames;

impl<'a> Kind<'a> for RuleNames {
    ghost name_of = { λ _. rule_name };

    fn name(&self, line: &'a Line) -> Option<&'a [u8]> {
        name_of_line(line)
    }
}

/// The name that a RULE line defines, unless it is too long or has too few items.
#[tactic(auto, unfolding(crate::specs::RuleFaults::rule_name))]
fn name_of_line<'a>(line: &'a Line) -> Option<&'a [u8]>
    ensures { option_map (λ name. name.now) result ≡ rule_name line.now }
{
    if begins_rule(line) && !is_too_long(line) {
        name_in(line.tokens.as_slice())
    } else {
        None
    }
}

fn name_in<'a>(tokens: &'a [Text]) -> Option<&'a [u8]>
    ensures { option_map (λ name. name.now) result ≡ name_of_tokens tokens.now }
{
    match tokens {
        [_, name, ..] => Some(name.as_slice()),
        _ => None,
    }
}

/// The first hundred faults of lines, by the names that all of them define.
pub(crate) fn read_faults<'a>(
    alloc: Global,
    known: &Known<'a>,
    names: &Names<'a>,
    lines: &'a List<Line>,
) -> Result<List<LineFault>, OutOfMemory>
    requires names { numbers_of names.now ≡ number_in (defined rule_name lines.now) }
    ensures { IfOk result (λ faults. faults ≡ cut (gather (rule_fault (context_of known.now) lines.now) [] lines.now)) }
{
    let all = lines.as_slice();
    let mut faults = List::new(alloc);
    let mut part = RulePart::Outside;
    let mut rules = 0u32;
    let mut pieces = 0u32;
    let mut next = 1usize;
    for line in all {
        let naming = naming_of_line(&RuleNames, names, line, rules);
        let found = fault_of(
            known,
            part,
            pieces >= MOST_PIECES,
            naming,
            &all[next..],
            line,
        );
        keep_fault(alloc, &mut faults, line, found)?;
        rules = count_line(&RuleNames, line, naming, rules);
        pieces = pieces_with(part, line, pieces);
        part = part_after_line(part, line);
        next += 1;
    }
    Ok(faults)
}

/// Appends the fault of a line, if it has one.
fn keep_fault(
    alloc: Global,
    faults: &mut List<LineFault>,
    line: &Line,
    fault: Option<Fault>,
) -> Result<(), OutOfMemory>
    requires short { length faults.old ≤ 100 }
    ensures faults { OnOk result (faults.new ≡ cut (faults.old ++ fault_found line.now fault)) }
    ensures short { OnOk result (length faults.new ≤ 100) }
{
    match fault {
        Some(fault) => add_fault(alloc, faults, line, fault),
        None => Ok(()),
    }
}

/// The fault of a line, by how far its rule has come, whether there are as many tests and actions as may be, how the
/// name stands that it defines, and the lines after it.
#[tactic(auto, unfolding(crate::specs::RuleFaults::fault_with))]
fn fault_of<'a>(
    known: &Known<'a>,
    part: RulePart,
    full: bool,
    naming: Naming,
    after: &[Line],
    line: &'a Line,
) -> Option<Fault>
    ensures { result ≡ fault_with (context_of known.now) part full naming after.now line.now }
{
    if is_controls(line.section) && !is_too_long(line) {
        fault_of_clause(known, part, full, naming, after, line)
    } else {
        None
    }
}

/// The same of a line of the section that isn't too long.
fn fault_of_clause<'a>(
    known: &Known<'a>,
    part: RulePart,
    full: bool,
    naming: Naming,
    after: &[Line],
    line: &'a Line,
) -> Option<Fault>
    ensures { result ≡ fault_by_clause (context_of known.now) part full naming after.now line.now.tokens
        (clause_of_line line.now) }
{
    let tokens = line.tokens.as_slice();
    match clause_at(line) {
        None => Some(fault_of_kind(FaultKind::InvalidKeyword, 0)),
        Some(Clause::Rule) => name_fault(tokens, naming, own_lines(after)),
        Some(clause) => {
            let role = role_of(part, clause);
            match clause_fault(part, clause, full, tokens, role) {
                Some(fault) => Some(fault),
                None => item_fault(known, role, tokens),
            }
        }
    }
}

/// The fault of a RULE line.
fn name_fault(tokens: &[Text], naming: Naming, own: &[Line]) -> Option<Fault>
    ensures { result ≡ name_fault_of tokens.now naming own.now }
{
    if tokens.len() < 2 {
        return Some(too_few(tokens));
    }
    if is_over(naming) {
        return Some(fault_of_kind(FaultKind::OverLimit, 0));
    }
    if !is_past_tests(own_part(own)) {
        return Some(fault_of_kind(FaultKind::RuleSequence, 0));
    }
    if is_repeated(naming) {
        return Some(fault_of_kind(FaultKind::DuplicateName, 1));
    }
    None
}

fn is_over(naming: Naming) -> bool
    ensures { result ≡ is_over naming }
{
    matches!(naming, Naming::OverLimit)
}

fn is_repeated(naming: Naming) -> bool
    ensures { result ≡ is_repeated naming }
{
    matches!(naming, Naming::Repeated)
}

/// The fault of another clause before its items are looked at.
fn clause_fault(
    part: RulePart,
    clause: Clause,
    full: bool,
    tokens: &[Text],
    role: Role,
) -> Option<Fault>
    ensures { result ≡ clause_fault_of part clause full tokens.now role }
{
    if is_short(role, tokens) {
        return Some(too_few(tokens));
    }
    if next_part(part, clause).is_none() {
        return Some(fault_of_kind(FaultKind::RuleSequence, 0));
    }
    if full && is_limited(role) {
        return Some(fault_of_kind(FaultKind::OverLimit, 0));
    }
    None
}

/// The fault of the first item at fault.
fn item_fault<'a>(known: &Known<'a>, role: Role, tokens: &'a [Text]) -> Option<Fault>
    ensures { result ≡ item_fault_of (context_of known.now) role tokens.now }
{
    match role {
        Role::Name => None,
        Role::Test => error_in(read_test(known, tokens)),
        Role::Action => error_in(read_action(known, tokens)),
        Role::Priority => error_in(read_priority(known, tokens)),
    }
}

/// The fault of a reading.
fn error_in<T: Drop>(outcome: Result<T, Fault>) -> Option<Fault>
    ensures { result ≡ error_of outcome }
{
    match outcome {
        Ok(_) => None,
        Err(fault) => Some(fault),
    }
}

/// The count of tests and actions after a line, which ends at the greatest count.
fn pieces_with(part: RulePart, line: &Line, count: u32) -> u32
    requires { count ≤ MOST_PIECES }
    ensures { result ≡ pieces_after part line.now count }
{
    if gives_piece(part, line) {
        (count + 1).min(MOST_PIECES)
    } else {
        count
    }
}

/// Whether a line is a test or an action of its rule.
#[tactic(auto, unfolding(crate::specs::RuleFaults::gives_piece))]
fn gives_piece(part: RulePart, line: &Line) -> bool
    ensures { result ≡ gives_piece_of part line.now }
{
    !is_too_long(line) && is_piece(part, line.tokens.as_slice(), clause_at(line))
}

fn is_piece(part: RulePart, tokens: &[Text], clause: Option<Clause>) -> bool
    ensures { result ≡ is_piece_of part tokens.now clause }
{
    match clause {
        None => false,
        Some(clause) => {
            let role = role_of(part, clause);
            is_limited(role) && !is_short(role, tokens) && next_part(part, clause).is_some()
        }
    }
}
