// The words of tests and actions.
ghost use Rattle.std.specs.Prelude.{◌≡◌};
ghost use Rattle.inp_rules.specs.RuleWords.{actor_of, clock_look_of, is_outside as is_outside_word, link_look_of};
ghost use Rattle.inp_rules.specs.RuleWords.{node_look_of, number_look, part_of, relation_of};
ghost use Rattle.inp_rules.specs.RuleWords.{setting_alone, status_alone, status_or_setting, watched_of};

use inp_forms::Objects;
use inp_values::is_word;
use net_types::{Relation, Subject};

/// What a test looks at: a node, a link of a kind, or the clock.
#[derive(Clone, Copy, Debug, PartialEq, Eq)]
pub(crate) enum Watched {
    Node,
    Link(Objects),
    Simulation,
}

/// What of it a test looks at; the words of a status may stand for a setting.
#[derive(Clone, Copy, Debug, PartialEq, Eq)]
pub(crate) struct Looked {
    pub subject: Subject,
    pub by_status: bool,
}

/// What an action sets.
#[derive(Clone, Copy, Debug, PartialEq, Eq)]
pub(crate) enum Part {
    PumpStatus,
    ConduitStatus,
    Setting,
}

/// What the object word of a test says.
pub(crate) fn watched_in(word: &[u8]) -> Option<Watched>
    ensures { result ≡ watched_of word.now }
{
    if is_word(word, b"NODE") {
        Some(Watched::Node)
    } else if is_word(word, b"LINK") {
        Some(Watched::Link(Objects::Links))
    } else if is_word(word, b"CONDUIT") {
        Some(Watched::Link(Objects::Conduits))
    } else if is_word(word, b"PUMP") {
        Some(Watched::Link(Objects::Pumps))
    } else if is_word(word, b"ORIFICE") {
        Some(Watched::Link(Objects::Orifices))
    } else if is_word(word, b"WEIR") {
        Some(Watched::Link(Objects::Weirs))
    } else if is_word(word, b"SIMULATION") {
        Some(Watched::Simulation)
    } else {
        None
    }
}

/// What a test looks at of a node by its word.
pub(crate) fn node_look(node: u32, word: &[u8]) -> Option<Looked>
    ensures { result ≡ node_look_of node word.now }
{
    if is_word(word, b"DEPTH") {
        number(Subject::NodeDepth(node))
    } else if is_word(word, b"HEAD") {
        number(Subject::NodeHead(node))
    } else if is_word(word, b"INFLOW") {
        number(Subject::NodeInflow(node))
    } else {
        None
    }
}

/// What a test looks at of a link by its word.
pub(crate) fn link_look(link: u32, word: &[u8]) -> Option<Looked>
    ensures { result ≡ link_look_of link word.now }
{
    if is_word(word, b"FLOW") {
        number(Subject::LinkFlow(link))
    } else if is_word(word, b"SETTING") {
        number(Subject::LinkSetting(link))
    } else if is_word(word, b"STATUS") {
        Some(Looked {
            subject: Subject::LinkSetting(link),
            by_status: true,
        })
    } else {
        None
    }
}

/// What a test looks at of the clock by its word.
pub(crate) fn clock_look(word: &[u8]) -> Option<Looked>
    ensures { result ≡ clock_look_of word.now }
{
    if is_word(word, b"TIME") {
        number(Subject::Elapsed)
    } else if is_word(word, b"CLOCKTIME") {
        number(Subject::ClockTime)
    } else if is_word(word, b"MONTH") {
        number(Subject::Month)
    } else if is_word(word, b"DAY") {
        number(Subject::Weekday)
    } else {
        None
    }
}

/// A subject whose value is written as a number.
fn number(subject: Subject) -> Option<Looked>
    ensures { result ≡ number_look subject }
{
    Some(Looked {
        subject,
        by_status: false,
    })
}

/// The relation of a test by its sign.
pub(crate) fn relation(sign: &[u8]) -> Option<Relation>
    ensures { result ≡ relation_of sign.now }
{
    if is_word(sign, b"=") {
        Some(Relation::Eq)
    } else if is_word(sign, b"<>") {
        Some(Relation::Ne)
    } else if is_word(sign, b"<") {
        Some(Relation::Lt)
    } else if is_word(sign, b"<=") {
        Some(Relation::Le)
    } else if is_word(sign, b">") {
        Some(Relation::Gt)
    } else if is_word(sign, b">=") {
        Some(Relation::Ge)
    } else {
        None
    }
}

/// The kind of link on which an action acts by its object word.
pub(crate) fn actor(word: &[u8]) -> Option<Objects>
    ensures { result ≡ actor_of word.now }
{
    if is_word(word, b"PUMP") {
        Some(Objects::Pumps)
    } else if is_word(word, b"CONDUIT") {
        Some(Objects::Conduits)
    } else if is_word(word, b"ORIFICE") {
        Some(Objects::Orifices)
    } else if is_word(word, b"WEIR") {
        Some(Objects::Weirs)
    } else {
        None
    }
}

/// What an action sets of a link of this kind by its word.
pub(crate) fn part_in(objects: Objects, word: &[u8]) -> Option<Part>
    ensures { result ≡ part_of objects word.now }
{
    match objects {
        Objects::Pumps => pump_part(word),
        Objects::Conduits => conduit_part(word),
        _ => other_part(word),
    }
}

/// What an action sets of a pump.
fn pump_part(word: &[u8]) -> Option<Part>
    ensures { result ≡ status_or_setting word.now }
{
    if is_word(word, b"STATUS") {
        Some(Part::PumpStatus)
    } else if is_word(word, b"SETTING") {
        Some(Part::Setting)
    } else {
        None
    }
}

/// What an action sets of a conduit.
fn conduit_part(word: &[u8]) -> Option<Part>
    ensures { result ≡ status_alone word.now }
{
    if is_word(word, b"STATUS") {
        Some(Part::ConduitStatus)
    } else {
        None
    }
}

/// What an action sets of another link.
fn other_part(word: &[u8]) -> Option<Part>
    ensures { result ≡ setting_alone word.now }
{
    if is_word(word, b"SETTING") {
        Some(Part::Setting)
    } else {
        None
    }
}

/// Whether a value of an action is one of those that aren't in this profile.
pub(crate) fn is_outside(word: &[u8]) -> bool
    ensures { result ≡ is_outside_word word.now }
{
    if is_word(word, b"CURVE") {
        true
    } else if is_word(word, b"TIMESERIES") {
        true
    } else {
        is_word(word, b"PID")
    }
}
