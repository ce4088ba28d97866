// The names of a command's files.
ghost use Rattle.std.specs.Prelude.{◌≡◌, IfOk};
ghost use Rattle.std.specs.Option.{option_map};
ghost use Rattle.command_words.specs.CommandWords.{command_of};
ghost use Rattle.swmm_top.specs.Names.{names_of};

use command_words::{Command, Task, read_words};
use net_types::{List, OutOfMemory, Text};
use std::alloc::Global;

/// The names of the files that a command uses, as its words give them.
#[derive(Debug, Drop)]
pub struct FileNames {
    pub inp: Option<Text>,
    pub rpt: Text,
    pub hot_in: Option<Text>,
    pub hot_out: Option<Text>,
}

/// The names of a command's files, byte for byte. None exactly where the words aren't a command.
pub fn file_names(alloc: Global, words: &List<Text>) -> Result<Option<FileNames>, OutOfMemory>
    ensures { IfOk result (λ names. names ≡ option_map names_of (command_of words.now)) }
{
    match read_words(alloc, words) {
        Ok(Some(command)) => Ok(Some(names_in(command))),
        Ok(None) => Ok(None),
        Err(fault) => Err(fault),
    }
}

// The names of this command's files.
fn names_in(command: Command) -> FileNames
    ensures { result ≡ names_of command }
{
    let Command { task, rpt, .. } = command;
    match task {
        Task::Run {
            inp,
            hot_in,
            hot_out,
        } => FileNames {
            inp: Some(inp),
            rpt,
            hot_in,
            hot_out,
        },
        Task::Check { inp } => FileNames {
            inp: Some(inp),
            rpt,
            hot_in: None,
            hot_out: None,
        },
        Task::Demo { number: _ } => FileNames {
            inp: None,
            rpt,
            hot_in: None,
            hot_out: None,
        },
    }
}
