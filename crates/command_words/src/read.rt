// From the words to their command.
ghost use Rattle.std.specs.Prelude.{◌≡◌, None, Some, true, if◌then◌else◌, IfOk};
ghost use Rattle.std.specs.List.{list_all};
ghost use Rattle.std.specs.Option.{option_map};
ghost use Rattle.std.specs.Str.{is_utf8};
ghost use Rattle.clap.specs.Walk.{texts};
ghost use Rattle.clap.specs.Words.{first_value, found_of};
ghost use Rattle.command_words.specs.CommandWords.{command_by, command_of};

use crate::command::Command;
use crate::line::find;
use crate::modes::{Options, command_in};
use clap::ArgMatches;
use net_types::{List, OutOfMemory, Text};
use std::alloc::Global;
use std::str;

/// The command that the words after the program's name are. None exactly where they are no command: a word that isn't
/// UTF-8, a place or value that is missing, one too many, an option that is unknown, given twice or not of the mode, a
/// mode, number or name that isn't one. `OutOfMemory` where memory can't be had.
#[tactic(auto, unfolding(crate::specs::CommandWords::command_of))]
pub fn read_words(alloc: Global, words: &List<Text>) -> Result<Option<Command>, OutOfMemory>
    ensures { IfOk result (λ command. command ≡ command_of words.now) }
{
    let Some(texts) = texts_of(alloc, words)? else {
        return Ok(None);
    };
    read_texts(alloc, texts.as_slice())
}

// The command of words that are text.
fn read_texts(alloc: Global, words: &[&str]) -> Result<Option<Command>, OutOfMemory>
    requires { list_all is_utf8 (texts words.now) ≡ true }
    ensures { IfOk result (λ command. command ≡ command_of (texts words.now)) }
{
    match find(alloc, words)? {
        Some(matches) => command_by_values(alloc, &matches),
        None => Ok(None),
    }
}

// The command of the values that were found.
fn command_by_values(
    alloc: Global,
    matches: &ArgMatches<'_>,
) -> Result<Option<Command>, OutOfMemory>
    ensures { IfOk result (λ command. command ≡ command_by (first_value (found_of matches.now))) }
{
    let Some(mode) = matches.get_str("mode") else {
        return Ok(None);
    };
    let Some(first) = matches.get_str("first") else {
        return Ok(None);
    };
    let Some(second) = matches.get_str("second") else {
        return Ok(None);
    };
    let options = Options {
        threads: matches.get_str("threads"),
        hot_in: matches.get_str("hot-in"),
        hot_out: matches.get_str("hot-out"),
    };
    command_in(alloc, mode, first, second, &options)
}

// The words as texts. None where one of them isn't UTF-8.
fn texts_of<'w>(alloc: Global, words: &'w List<Text>) -> Result<Option<Vec<&'w str>>, OutOfMemory>
    ensures { IfOk result (λ found.
        option_map (λ v. texts v.items) found ≡ (if list_all is_utf8 words.now then Some words.now else None)) }
{
    let mut found = Vec::new(alloc);
    for word in words.as_slice() {
        match str::from_utf8(word.as_slice()) {
            Ok(text) => found.push(text)?,
            Err(_) => return Ok(None),
        }
    }
    Ok(Some(found))
}
