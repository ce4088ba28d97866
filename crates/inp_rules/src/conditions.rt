// The tests of rules.
ghost use Rattle.std.specs.Prelude.{◌≡◌, ◌+◌, ◌<◌, ◌^◌};
ghost use Rattle.inp_forms.specs.Context.{context_of};
ghost use Rattle.inp_forms.specs.declared.item.Objects.{Objects as ObjectKind};
ghost use Rattle.inp_lines.specs.Faults.{token_at};
ghost use Rattle.inp_rules.specs.Tests.{compared, least_of_test as least_of, looked_test, test_of, watched_test};
ghost use Rattle.inp_rules.specs.RuleWords.{clock_look_of, watched_of};
ghost use Rattle.inp_rules.specs.declared.words.Watched.TheVariants.{Node as NodeWatched, Link as LinkWatched};
ghost use Rattle.std.specs.Prelude.{Some as Found};

use crate::values::{object, tested_value, text_at};
use crate::words::{Looked, Watched, clock_look, link_look, node_look, relation, watched_in};
use inp_forms::{Known, Objects};
use inp_lines::{Fault, fault_of_kind, too_few};
use inp_values::is_word;
use net_types::{FaultKind, Test, Text};

/// The test of a clause of a control rule, by what is known of the whole input, or the clause's one fault: 203 where it
/// has too few items, and else that of its first item at fault.
///
/// The first token is the clause's word, whatever it is. Source: User's Manual, section [CONTROLS]; what is left out of
/// it is this project's profile.
#[tactic(auto, unfolding(crate::specs::Tests::test_of))]
pub fn read_test<'a>(known: &Known<'a>, tokens: &'a [Text]) -> Result<Test, Fault>
    ensures { result ≡ test_of (context_of known.now) tokens.now }
{
    let word = text_at(tokens, 1);
    if tokens.len() < least_of_test(word) {
        return Err(too_few(tokens));
    }
    watched_by(known, tokens, watched_in(word))
}

/// How many items a test needs.
pub(crate) fn least_of_test(word: &[u8]) -> usize
    ensures { result ≡ least_of word.now }
{
    if is_word(word, b"SIMULATION") { 5 } else { 6 }
}

/// The test of what is looked at.
fn watched_by<'a>(
    known: &Known<'a>,
    tokens: &'a [Text],
    watched: Option<Watched>,
) -> Result<Test, Fault>
    ensures { result ≡ watched_test (context_of known.now) tokens.now watched }
{
    match watched {
        None => Err(fault_of_kind(FaultKind::InvalidKeyword, 1)),
        Some(Watched::Node) => node_test(known, tokens),
        Some(Watched::Link(objects)) => link_test(known, tokens, objects),
        Some(Watched::Simulation) => looked_at(known, tokens, 2, clock_look(text_at(tokens, 2))),
    }
}

/// The test of a node.
fn node_test<'a>(known: &Known<'a>, tokens: &'a [Text]) -> Result<Test, Fault>
    ensures { result ≡ watched_test (context_of known.now) tokens.now (Found NodeWatched) }
{
    match object(known, Objects::Nodes, text_at(tokens, 2), 2) {
        Ok(node) => looked_at(known, tokens, 3, node_look(node, text_at(tokens, 3))),
        Err(fault) => Err(fault),
    }
}

/// The test of a link of a kind.
fn link_test<'a>(known: &Known<'a>, tokens: &'a [Text], objects: Objects) -> Result<Test, Fault>
    ensures { result ≡ watched_test (context_of known.now) tokens.now (Found (LinkWatched objects)) }
{
    match object(known, objects, text_at(tokens, 2), 2) {
        Ok(link) => looked_at(known, tokens, 3, link_look(link, text_at(tokens, 3))),
        Err(fault) => Err(fault),
    }
}

/// The test of what is looked at, whose word stands at a place.
fn looked_at<'a>(
    known: &Known<'a>,
    tokens: &'a [Text],
    place: usize,
    looked: Option<Looked>,
) -> Result<Test, Fault>
    requires { place < 4 }
    ensures { result ≡ looked_test (context_of known.now) tokens.now place looked }
{
    match looked {
        None => Err(fault_of_kind(FaultKind::NotInProfile, place)),
        Some(looked) => comparison(known, tokens, place + 1, looked),
    }
}

/// Relation and value, from a place on.
#[tactic(auto, unfolding(crate::specs::Tests::compared))]
fn comparison<'a>(
    known: &Known<'a>,
    tokens: &'a [Text],
    place: usize,
    looked: Looked,
) -> Result<Test, Fault>
    requires { place < 5 }
    ensures { result ≡ compared (context_of known.now) tokens.now place looked }
{
    match relation(text_at(tokens, place)) {
        None => Err(fault_of_kind(FaultKind::InvalidKeyword, place)),
        Some(relation) => match tested_value(known, looked, text_at(tokens, place + 1), place + 1) {
            Ok(value) => Ok(Test {
                subject: looked.subject,
                relation,
                value,
            }),
            Err(fault) => Err(fault),
        },
    }
}
