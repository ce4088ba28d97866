use crate::{Command, Task, read_words};
use net_types::{List, OutOfMemory, Text};
use std::alloc::{AllocError, Global};
use std::str;
use std::test::Fail;

// Words and the command that they are: the mode, its input or number, the report, the number of workers and the
// hotstarts, with 0 and `-` where none is given. Among the words `.` stands for the empty word, `!` for the byte 255.
const ROWS: [(&str, &str); 33] = [
    ("run a.inp a.rpt", "run a.inp a.rpt 0 - -"),
    (
        "run --threads 16 a.inp --hot-in=old a.rpt --hot-out new",
        "run a.inp a.rpt 16 old new",
    ),
    ("--hot-out=new run a.inp a.rpt", "run a.inp a.rpt 0 - new"),
    ("check a.inp a.rpt", "check a.inp a.rpt 0"),
    (
        "demo 4294967295 a.rpt --threads=01",
        "demo 4294967295 a.rpt 1",
    ),
    ("demo 0000000007 a.rpt", "demo 7 a.rpt 0"),
    ("run -- -a.inp --threads", "run -a.inp --threads 0 - -"),
    ("run a.inp a.rpt --hot-in=-x", "run a.inp a.rpt 0 -x -"),
    ("run a.inp a.rpt --hot-in -x", "none"),
    ("run a.inp a.rpt --hot-in", "none"),
    ("run a.inp a.rpt --hot-in=", "none"),
    ("run a.inp a.rpt --hot-out -", "none"),
    ("run a.inp a.rpt --hot-out=-", "none"),
    ("run a.inp a.rpt --threads 17", "none"),
    ("run a.inp a.rpt --threads 0", "none"),
    ("run a.inp a.rpt --threads 016", "none"),
    ("run a.inp a.rpt --threads +4", "none"),
    ("run a.inp a.rpt --threads 2 --threads=2", "none"),
    ("run a.inp a.rpt --quiet", "none"),
    ("run a.inp a.rpt --help", "none"),
    ("run a.inp a.rpt -t", "none"),
    ("run a.inp", "none"),
    ("run a.inp a.rpt more", "none"),
    ("run a.inp a.rpt -- --threads 2", "none"),
    ("Run a.inp a.rpt", "none"),
    ("run . a.rpt", "none"),
    ("run a.inp -", "none"),
    ("run a.inp !", "none"),
    ("check a.inp a.rpt --threads 2", "none"),
    ("demo 1 a.rpt --hot-out new", "none"),
    ("demo 4294967296 a.rpt", "none"),
    ("demo 00000000007 a.rpt", "none"),
    ("demo a.inp a.rpt", "none"),
];

#[test]
fn words_are_their_commands(rt: HostRuntime) -> Result<(), Fail> {
    let alloc = rt.alloc();
    for (line, want) in ROWS {
        let words = words_of(alloc, line)?;
        let command = read_words(alloc, &words)?;
        let text = told(alloc, &command)?;
        assert_eq!(rt; text.as_str(), want, "at {line}");
    }
    Ok(())
}

// The words of a line, which single spaces part.
fn words_of(alloc: Global, line: &str) -> Result<List<Text>, OutOfMemory> {
    let mut words = List::new(alloc);
    for word in line.split(' ') {
        let bytes: &[u8] = match word {
            "." => b"",
            "!" => b"\xff",
            _ => word.as_bytes(),
        };
        words.push(Text::from_slice(alloc, bytes)?)?;
    }
    Ok(words)
}

// A command as the rows write it.
fn told(alloc: Global, command: &Option<Command>) -> Result<String, AllocError> {
    let Some(command) = command else {
        return format!(in alloc; "none");
    };
    let (rpt, threads) = (shown(&command.rpt), command.threads.unwrap_or(0));
    match &command.task {
        Task::Run {
            inp,
            hot_in,
            hot_out,
        } => {
            let (hot_in, hot_out) = (shown_if_given(hot_in), shown_if_given(hot_out));
            format!(in alloc; "run {} {rpt} {threads} {hot_in} {hot_out}", shown(inp))
        }
        Task::Check { inp } => format!(in alloc; "check {} {rpt} {threads}", shown(inp)),
        Task::Demo { number } => format!(in alloc; "demo {number} {rpt} {threads}"),
    }
}

fn shown_if_given(text: &Option<Text>) -> &str {
    match text {
        Some(text) => shown(text),
        None => "-",
    }
}

fn shown(text: &Text) -> &str {
    match str::from_utf8(text.as_slice()) {
        Ok(text) => text,
        Err(_) => "?",
    }
}
