// The places of the links while the rules are gone through: which list of actions has claimed each of them.
ghost use Rattle.std.specs.Prelude.{◌≡◌, ℕ, ◌*◌, ◌<◌, ◌≤◌, length, negsuc, slice_set, if◌then◌else◌};
ghost use Rattle.std.specs.Ordering.{int_eq};
ghost use Rattle.std.specs.List.{All};
ghost use Rattle.fixed_num.specs.Lists.{number};
ghost use Rattle.net_types.specs.Sound.{IsSound};
ghost use Rattle.control_rules.specs.Conditions.{conditions_of, Fit};
ghost use Rattle.control_rules.specs.Places.{unclaimed as unclaimed_place, IsPlace, IsAction};
ghost use Rattle.control_rules.specs.Places.{list_at as list_at_number, list_taken as list_taken_by};
ghost use Rattle.control_rules.specs.Places.{gives_way as gives_way_to, claimed, claimed_after};
ghost use Rattle.control_rules.specs.Places.{settled, settled_after};
ghost use Rattle.control_rules.specs.Settings.{outranks as outranks_priority};

use crate::facts::Facts;
use crate::groups::is_met;
use net_types::{Action, Project, Rule};

// The place of a link that no list of actions has claimed. List n claims it by the number -n - 1; rule k has the lists
// 2 k, after THEN, and 2 k + 1, after ELSE.
const UNCLAIMED: i64 = i64::MIN;

// Makes all places unclaimed.
pub(crate) fn clear(places: &mut [i64])
    ensures { (link : ℕ) → link < length places.old → number places.new link ≡ unclaimed_place }
{
    for place in places.iter_mut() {
        *place = UNCLAIMED;
    }
}

// Lets the list that each rule takes claim the links of its actions.
pub(crate) fn claim_links(project: &Project, facts: &Facts, places: &mut [i64])
    requires fit { Fit project.now (conditions_of facts.now) }
    requires sound { IsSound project.now }
    requires places { length places.old ≡ length project.now.links }
    requires clear { (link : ℕ) → link < length places.old → number places.old link ≡ unclaimed_place }
    ensures each { (link : ℕ) → link < length places.old → number places.new link
        ≡ claimed_after project.now.nodes (conditions_of facts.now) project.now.rules link (length project.now.rules) }
    ensures valid { (link : ℕ) → link < length places.old
        → IsPlace (length project.now.rules) (number places.new link) }
{
    let rules = project.rules.as_slice();
    for rule in 0..rules.len() {
        let list = list_taken(project, facts, rule);
        claim(rules, list, places);
    }
}

// The number of the list of actions that a rule takes.
fn list_taken(project: &Project, facts: &Facts, rule: usize) -> usize
    requires fit { Fit project.now (conditions_of facts.now) }
    requires sound { IsSound project.now }
    requires rule { rule < length project.now.rules }
    ensures value { result ≡ list_taken_by project.now.nodes (conditions_of facts.now) project.now.rules rule }
    ensures within { result < 2 * length project.now.rules }
{
    if is_met(project, facts, &project.rules.as_slice()[rule]) {
        2 * rule
    } else {
        2 * rule + 1
    }
}

// The list of actions of a number.
fn list_at(rules: &[Rule], list: usize) -> &[Action]
    requires { list < 2 * length rules.now }
    ensures { result.now ≡ list_at_number rules.now list }
{
    let rule = &rules[list / 2];
    if list % 2 == 0 {
        rule.then_acts.as_slice()
    } else {
        rule.else_acts.as_slice()
    }
}

// Lets a list claim the links of its actions that give way to it.
fn claim(rules: &[Rule], list: usize, places: &mut [i64])
    requires list { list < 2 * length rules.now }
    requires few { length rules.now ≤ 20_000 }
    requires acts { All (IsAction (length places.old)) (list_at_number rules.now list) }
    requires valid { (link : ℕ) → link < length places.old → IsPlace (length rules.now) (number places.old link) }
    ensures each { (link : ℕ) → link < length places.old → number places.new link
        ≡ claimed rules.now list (list_at_number rules.now list) link (number places.old link) }
    ensures valid { (link : ℕ) → link < length places.old → IsPlace (length rules.now) (number places.new link) }
{
    for action in list_at(rules, list) {
        claim_link(rules, list, action.link as usize, places);
    }
}

// Lets a list claim a link, where its place gives way.
fn claim_link(rules: &[Rule], list: usize, link: usize, places: &mut [i64])
    requires list { list < 2 * length rules.now }
    requires few { length rules.now ≤ 20_000 }
    requires link { link < length places.old }
    requires valid { IsPlace (length rules.now) (number places.old link) }
    ensures { places.new ≡ (if gives_way_to rules.now list (number places.old link)
        then slice_set places.old link (negsuc list) else places.old) }
{
    if gives_way(rules, list, places[link]) {
        places[link] = -1 - list as i64;
    }
}

// Whether a place gives way to a list: it is unclaimed, or its rule is outranked by that of the list.
fn gives_way(rules: &[Rule], list: usize, place: i64) -> bool
    requires list { list < 2 * length rules.now }
    requires place { IsPlace (length rules.now) place }
    ensures { result ≡ gives_way_to rules.now list place }
{
    if place == UNCLAIMED {
        return true;
    }
    let holder = (place.unsigned_abs() - 1) as usize;
    outranks(&rules[list / 2].priority6, &rules[holder / 2].priority6)
}

// Whether the first priority is above the second.
fn outranks(a: &Option<i64>, b: &Option<i64>) -> bool
    ensures { result ≡ outranks_priority a.now b.now }
{
    match a {
        None => false,
        Some(above) => match b {
            None => true,
            Some(below) => *above > *below,
        },
    }
}

// Gives the claimed links the settings of the lists that have claimed them.
pub(crate) fn settle_links(project: &Project, places: &mut [i64])
    requires sound { IsSound project.now }
    requires places { length places.old ≡ length project.now.links }
    ensures { (link : ℕ) → link < length places.old → number places.new link
        ≡ settled_after project.now.rules link (number places.old link) (2 * length project.now.rules) }
{
    let rules = project.rules.as_slice();
    for list in 0..2 * rules.len() {
        settle(rules, list, places);
    }
}

// Gives the links that a list has claimed the settings of its actions, each that of the first one on it.
fn settle(rules: &[Rule], list: usize, places: &mut [i64])
    requires list { list < 2 * length rules.now }
    requires few { length rules.now ≤ 20_000 }
    requires acts { All (IsAction (length places.old)) (list_at_number rules.now list) }
    ensures { (link : ℕ) → link < length places.old → number places.new link
        ≡ settled list (list_at_number rules.now list) link (number places.old link) }
{
    for action in list_at(rules, list) {
        settle_link(list, action, places);
    }
}

// Gives the link of an action its setting, where the list has claimed it.
fn settle_link(list: usize, action: &Action, places: &mut [i64])
    requires list { list < 40_000 }
    requires link { action.now.link < length places.old }
    ensures { places.new ≡ (if int_eq (number places.old action.now.link) (negsuc list)
        then slice_set places.old action.now.link action.now.setting6 else places.old) }
{
    let link = action.link as usize;
    if places[link] == -1 - list as i64 {
        places[link] = action.setting6;
    }
}

// Gives the unclaimed links the settings that they had.
pub(crate) fn restore(settings: &[i64], places: &mut [i64])
    requires { length places.old ≡ length settings.now }
    ensures { (link : ℕ) → link < length places.old → number places.new link
        ≡ (if int_eq (number places.old link) unclaimed_place
        then number settings.now link else number places.old link) }
{
    for link in 0..places.len() {
        if places[link] == UNCLAIMED {
            places[link] = settings[link];
        }
    }
}
