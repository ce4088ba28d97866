// The three modes: what each makes of its places and options.
ghost use Rattle.std.specs.Prelude.{◌≡◌, IfOk};
ghost use Rattle.command_words.specs.CommandWords.{check_of, command_with, demo_of, run_of};
ghost use Rattle.command_words.specs.Plain.{values_of};
ghost use Rattle.std.specs.Option.{option_map};

use crate::command::{Command, Task};
use crate::values::{may_name_file, names_file, number, workers};
use net_types::{OutOfMemory, Text};
use std::alloc::Global;

// The values of the options, where they are given.
#[derive(Clone, Copy)]
pub(crate) struct Options<'a> {
    pub(crate) threads: Option<&'a str>,
    pub(crate) hot_in: Option<&'a str>,
    pub(crate) hot_out: Option<&'a str>,
}

// The command of these words, if any.
pub(crate) fn command_in(
    alloc: Global,
    mode: &str,
    first: &str,
    second: &str,
    options: &Options<'_>,
) -> Result<Option<Command>, OutOfMemory>
    ensures { IfOk result (λ command. command ≡ command_with mode.now first.now second.now (values_of options.now)) }
{
    match mode {
        "run" => run(alloc, first, second, options),
        "check" => check(alloc, first, second, options),
        "demo" => demo(alloc, first, second, options),
        _ => Ok(None),
    }
}

// `run INP RPT`, with any of the options.
fn run(
    alloc: Global,
    inp: &str,
    rpt: &str,
    options: &Options<'_>,
) -> Result<Option<Command>, OutOfMemory>
    ensures { IfOk result (λ command. command ≡ run_of inp.now rpt.now (values_of options.now)) }
{
    if !names_file(inp) || !names_file(rpt) {
        return Ok(None);
    }
    if !may_name_file(options.hot_in) || !may_name_file(options.hot_out) {
        return Ok(None);
    }
    let Some(threads) = workers(options.threads) else {
        return Ok(None);
    };
    let task = Task::Run {
        inp: text_of(alloc, inp)?,
        hot_in: text_if_given(alloc, options.hot_in)?,
        hot_out: text_if_given(alloc, options.hot_out)?,
    };
    let rpt = text_of(alloc, rpt)?;
    Ok(Some(Command { task, rpt, threads }))
}

// `check INP RPT`, without options.
fn check(
    alloc: Global,
    inp: &str,
    rpt: &str,
    options: &Options<'_>,
) -> Result<Option<Command>, OutOfMemory>
    ensures { IfOk result (λ command. command ≡ check_of inp.now rpt.now (values_of options.now)) }
{
    if !names_file(inp) || !names_file(rpt) {
        return Ok(None);
    }
    if options.threads.is_some() || options.hot_in.is_some() || options.hot_out.is_some() {
        return Ok(None);
    }
    let task = Task::Check {
        inp: text_of(alloc, inp)?,
    };
    let rpt = text_of(alloc, rpt)?;
    Ok(Some(Command {
        task,
        rpt,
        threads: None,
    }))
}

// `demo N RPT`, with `--threads` alone.
fn demo(
    alloc: Global,
    digits: &str,
    rpt: &str,
    options: &Options<'_>,
) -> Result<Option<Command>, OutOfMemory>
    ensures { IfOk result (λ command. command ≡ demo_of digits.now rpt.now (values_of options.now)) }
{
    if !names_file(rpt) || options.hot_in.is_some() || options.hot_out.is_some() {
        return Ok(None);
    }
    let Some(number) = number(digits, 10, 0, u32::MAX) else {
        return Ok(None);
    };
    let Some(threads) = workers(options.threads) else {
        return Ok(None);
    };
    let rpt = text_of(alloc, rpt)?;
    Ok(Some(Command {
        task: Task::Demo { number },
        rpt,
        threads,
    }))
}

// A copy of a name.
fn text_of(alloc: Global, name: &str) -> Result<Text, OutOfMemory>
    ensures { IfOk result (λ text. text ≡ name.now) }
{
    Text::from_slice(alloc, name.as_bytes())
}

// A copy of a name, where it is given.
fn text_if_given(alloc: Global, name: Option<&str>) -> Result<Option<Text>, OutOfMemory>
    ensures { IfOk result (λ text. text ≡ option_map (λ bytes. bytes.now) name.entry) }
{
    match name {
        Some(name) => Ok(Some(text_of(alloc, name)?)),
        None => Ok(None),
    }
}
