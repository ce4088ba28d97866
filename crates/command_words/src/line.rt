// The command line as clap reads it: three required places and three options that take one value each.
ghost use Rattle.std.specs.Prelude.{◌≡◌, false, true, map, IfOk};
ghost use Rattle.std.specs.List.{list_all};
ghost use Rattle.std.specs.Option.{option_map};
ghost use Rattle.std.specs.Str.{is_utf8};
ghost use Rattle.clap.specs.Words.{app_of, found_of, rows_of, rule_of};
ghost use Rattle.clap.specs.Walk.{texts};
ghost use Rattle.command_words.specs.ClapLine.{line_app, option_rule, place_rule, row};
ghost use Rattle.command_words.specs.Words.{given_by};

use clap::error::ErrorKind;
use clap::{Arg, ArgMatches, Command};
use net_types::OutOfMemory;
use std::alloc::{AllocError, Global};

// The values that the words give to places and options. None where the words break the form of the line.
pub(crate) fn find<'a>(
    alloc: Global,
    words: &'a [&'a str],
) -> Result<Option<ArgMatches<'a>>, OutOfMemory>
    requires { list_all is_utf8 (texts words.now) ≡ true }
    ensures { IfOk result (λ found.
        option_map (λ matches. rows_of (found_of matches)) found ≡ option_map (map row) (given_by (texts words.now))) }
{
    match command_line(alloc)?.try_get_matches_from(words) {
        Ok(matches) => Ok(Some(matches)),
        Err(error) => match error.kind() {
            ErrorKind::OutOfMemory => Err(OutOfMemory),
            _ => Ok(None),
        },
    }
}

// The form of the line.
fn command_line<'a>(alloc: Global) -> Result<Command<'a>, AllocError>
    ensures { IfOk result (λ command. app_of command ≡ line_app) }
{
    let bare = Command::new(alloc, "swmm5_fx")
        .no_binary_name(true)
        .disable_help_flag(true)
        .disable_version_flag(true);
    bare.arg(place(alloc, "mode"))?
        .arg(place(alloc, "first"))?
        .arg(place(alloc, "second"))?
        .arg(option(alloc, "threads"))?
        .arg(option(alloc, "hot-in"))?
        .arg(option(alloc, "hot-out"))
}

// A place that a word must take.
fn place<'a>(alloc: Global, id: &'a str) -> Arg<'a>
    ensures rule { rule_of result ≡ place_rule id.entry.now }
    ensures local { result.global ≡ false }
{
    Arg::new(alloc, id).required(true)
}

// An option that takes one value.
fn option<'a>(alloc: Global, name: &'a str) -> Arg<'a>
    ensures rule { rule_of result ≡ option_rule name.entry.now }
    ensures local { result.global ≡ false }
{
    Arg::new(alloc, name).long(name)
}
