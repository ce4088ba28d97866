// What a command is to do, without the names in it.
ghost use Rattle.std.specs.Prelude.{◌≡◌, IfOk};
ghost use Rattle.std.specs.Option.{option_map};
ghost use Rattle.command_words.specs.CommandWords.{command_of};
ghost use Rattle.swmm_top.specs.Uses.{check_only, run_only, work_of};
ghost use Rattle.swmm_top.specs.Work.{checks_of, runs_of, work_in};

use command_words::{Task, read_words};
use net_types::{List, OutOfMemory, Text};
use std::alloc::Global;

/// What a command is to do: a run, which may begin from a hotstart and keep one; a check; a sample of a number.
#[derive(Clone, Copy, Debug, PartialEq, Eq)]
pub(crate) enum Work {
    Run { resumes: bool, keeps: bool },
    Check,
    Demo { number: u32 },
}

/// What the words are to do. None exactly where they aren't a command.
pub(crate) fn read_work(alloc: Global, words: &List<Text>) -> Result<Option<Work>, OutOfMemory>
    ensures { IfOk result (λ work. work ≡ work_in (command_of words.now)) }
{
    match read_words(alloc, words) {
        Ok(Some(command)) => Ok(Some(work_of(&command.task))),
        Ok(None) => Ok(None),
        Err(fault) => Err(fault),
    }
}

/// What the words are to do where that is a run or a sample.
pub(crate) fn read_run(alloc: Global, words: &List<Text>) -> Result<Option<Work>, OutOfMemory>
    ensures { IfOk result (λ work. work ≡ work_in (run_only (command_of words.now))) }
{
    match read_work(alloc, words) {
        Ok(work) => Ok(runs(work)),
        Err(fault) => Err(fault),
    }
}

/// What the words are to do where that is a check.
pub(crate) fn read_check(alloc: Global, words: &List<Text>) -> Result<Option<Work>, OutOfMemory>
    ensures { IfOk result (λ work. work ≡ work_in (check_only (command_of words.now))) }
{
    match read_work(alloc, words) {
        Ok(work) => Ok(checks(work)),
        Err(fault) => Err(fault),
    }
}

// Work that is no check.
fn runs(work: Option<Work>) -> Option<Work>
    ensures { result ≡ runs_of work }
{
    match work {
        Some(Work::Run { resumes, keeps }) => Some(Work::Run { resumes, keeps }),
        Some(Work::Demo { number }) => Some(Work::Demo { number }),
        Some(Work::Check) => None,
        None => None,
    }
}

// Work that is a check.
fn checks(work: Option<Work>) -> Option<Work>
    ensures { result ≡ checks_of work }
{
    match work {
        Some(Work::Run { .. }) => None,
        Some(Work::Demo { .. }) => None,
        Some(Work::Check) => Some(Work::Check),
        None => None,
    }
}

// What a task is to do.
fn work_of(task: &Task) -> Work
    ensures { result ≡ work_of task.now }
{
    match task {
        Task::Run {
            hot_in,
            hot_out,
            ..
        } => Work::Run {
            resumes: hot_in.is_some(),
            keeps: hot_out.is_some(),
        },
        Task::Check { .. } => Work::Check,
        Task::Demo { number } => Work::Demo { number: *number },
    }
}
