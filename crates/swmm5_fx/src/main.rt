//! `swmm5_fx`: reads its words, opens the files that they name, does the command and ends with its status: 0 done,
//! 1 refused, 2 usage, 3 read fault, 4 write fault, 5 out of memory (`specs/Statuses.antt`). For the statuses from 2 on
//! it prints one line (`specs/Lines.antt`). Its ports stand over the files that its words name (`specs/Ports.antt`),
//! and what a command gives over them is the contract of `swmm_top::swmm_top`.
#![tactic(auto)]

mod line;
mod ports;

use crate::line::{line_of, status_of};
use crate::ports::{command_over, ports_over};
use net_types::{List, OutOfMemory, Text};
use std::env;
use std::io::{ErrorKind, Result as IoResult};
use std::process::ExitCode;
use std::rt::Files;
use std::sync::Wait;
use std::thread::Threads;
use swmm_top::{FileNames, Port, Status, TopFault, file_names};

fn main(rt: HostRuntime) -> ExitCode {
    let answer = done(&rt);
    let ended = match told(&rt, answer) {
        Ok(()) => answer,
        Err(_) => Err(TopFault::Write(Port::Rpt)),
    };
    ExitCode::from(status_of(ended))
}

// Prints the line of an answer, if it has one.
fn told<R: Print>(rt: &R, answer: Result<Status, TopFault>) -> IoResult<()> {
    match line_of(answer) {
        Some(line) => println!(rt; "{line}"),
        None => Ok(()),
    }
}

// Does the command that the program's words are.
fn done<R: AllocGlobal + env::Env + Files + Threads + Wait + Sync>(
    rt: &R,
) -> Result<Status, TopFault> {
    let Some(words) = words(rt)? else {
        return Ok(Status::Usage);
    };
    match file_names(rt.alloc(), &words) {
        Ok(Some(names)) => done_over(rt, &words, names),
        Ok(None) => Ok(Status::Usage),
        Err(OutOfMemory) => Err(TopFault::OutOfMemory),
    }
}

// Does the command of these words over the files of these names.
fn done_over<R: AllocGlobal + Files + Threads + Wait + Sync>(
    rt: &R,
    words: &List<Text>,
    names: FileNames,
) -> Result<Status, TopFault> {
    match ports_over(rt, names) {
        Ok(mut ports) => command_over(rt, words, &mut ports),
        Err(OutOfMemory) => Err(TopFault::OutOfMemory),
    }
}

// The words after the program's name. None where one of them is no text.
fn words<R: AllocGlobal + env::Env>(rt: &R) -> Result<Option<List<Text>>, TopFault> {
    let args = match env::args(rt) {
        Ok(args) => args,
        Err(error) if error.kind() == ErrorKind::OutOfMemory => return Err(TopFault::OutOfMemory),
        Err(_) => return Ok(None),
    };
    let mut words = List::new(rt.alloc());
    for arg in args.skip(1) {
        let word = text(rt, arg.as_bytes())?;
        if words.push(word).is_err() {
            return Err(TopFault::OutOfMemory);
        }
    }
    Ok(Some(words))
}

// A copy of the bytes.
fn text<R: AllocGlobal>(rt: &R, bytes: &[u8]) -> Result<Text, TopFault> {
    match Text::from_slice(rt.alloc(), bytes) {
        Ok(text) => Ok(text),
        Err(OutOfMemory) => Err(TopFault::OutOfMemory),
    }
}
