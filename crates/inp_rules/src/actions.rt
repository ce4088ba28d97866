// The actions of rules.
ghost use Rattle.std.specs.Prelude.{◌≡◌};
ghost use Rattle.inp_forms.specs.Context.{context_of};
ghost use Rattle.inp_rules.specs.Actions.{action_of, actor_action, part_action, setting_action};

use crate::values::{object, set_value, text_at};
use crate::words::{Part, actor, part_in};
use inp_forms::{Known, Objects};
use inp_lines::{Fault, fault_of_kind, too_few};
use inp_values::is_word;
use net_types::{Action, FaultKind, Text};

/// The action of a clause of a control rule, by what is known of the whole input, or the clause's one fault: 203 where
/// it has too few items, and else that of its first item at fault.
///
/// The first token is the clause's word, whatever it is. Source: User's Manual, section [CONTROLS]; what is left out of
/// it is this project's profile.
#[tactic(auto, unfolding(crate::specs::Actions::action_of))]
pub fn read_action<'a>(known: &Known<'a>, tokens: &'a [Text]) -> Result<Action, Fault>
    ensures { result ≡ action_of (context_of known.now) tokens.now }
{
    if tokens.len() < 6 {
        return Err(too_few(tokens));
    }
    action_on(known, tokens, actor(text_at(tokens, 1)))
}

/// The action on a link of a kind.
fn action_on<'a>(
    known: &Known<'a>,
    tokens: &'a [Text],
    objects: Option<Objects>,
) -> Result<Action, Fault>
    ensures { result ≡ actor_action (context_of known.now) tokens.now objects }
{
    match objects {
        None => Err(fault_of_kind(FaultKind::NotInProfile, 1)),
        Some(objects) => match object(known, objects, text_at(tokens, 2), 2) {
            Ok(link) => action_of_part(known, tokens, link, part_in(objects, text_at(tokens, 3))),
            Err(fault) => Err(fault),
        },
    }
}

/// The action that sets a part of a link.
fn action_of_part<'a>(
    known: &Known<'a>,
    tokens: &'a [Text],
    link: u32,
    part: Option<Part>,
) -> Result<Action, Fault>
    ensures { result ≡ part_action (context_of known.now) tokens.now link part }
{
    match part {
        None => Err(fault_of_kind(FaultKind::NotInProfile, 3)),
        Some(part) => setting_of(known, tokens, link, part),
    }
}

/// `=` and the value.
#[tactic(auto, unfolding(crate::specs::Actions::setting_action))]
fn setting_of<'a>(
    known: &Known<'a>,
    tokens: &'a [Text],
    link: u32,
    part: Part,
) -> Result<Action, Fault>
    ensures { result ≡ setting_action (context_of known.now) tokens.now link part }
{
    if is_word(text_at(tokens, 4), b"=") {
        match set_value(known, part, text_at(tokens, 5), 5) {
            Ok(setting6) => Ok(Action { link, setting6 }),
            Err(fault) => Err(fault),
        }
    } else {
        Err(fault_of_kind(FaultKind::InvalidKeyword, 4))
    }
}
