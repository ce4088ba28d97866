// Commands over memory.
ghost use Rattle.std.specs.Prelude.{◌≤◌};

use fault_ports::{MemSink, MemSource};
use net_types::{List, OutOfMemory, Text};
use std::alloc::Global;
use swmm_top::{Status, TopFault, check_top, run_alone_top};

// What a command over memory answers, and its report.
#[derive(Drop)]
pub(crate) struct Ran {
    pub(crate) answer: Result<Status, TopFault>,
    pub(crate) report: MemSink,
}

// Which calls of the ports fail, by their numbers, and the most bytes that one call reads.
#[derive(Clone, Copy)]
pub(crate) struct Trouble<'a> {
    pub(crate) reads: &'a [u64],
    pub(crate) puts: &'a [u64],
    pub(crate) most: usize,
}

pub(crate) const NO_TROUBLE: Trouble<'static> = Trouble {
    reads: &[],
    puts: &[],
    most: 64,
};

// Nothing fails, and each read gives a byte.
pub(crate) const BYTE_BY_BYTE: Trouble<'static> = Trouble {
    reads: &[],
    puts: &[],
    most: 1,
};

// Nothing fails, and a read gives a large piece.
pub(crate) const LARGE_PIECES: Trouble<'static> = Trouble {
    reads: &[],
    puts: &[],
    most: 4096,
};

fn list(alloc: Global, items: &[u64]) -> Result<List<u64>, OutOfMemory> {
    let mut list = List::new(alloc);
    for item in items {
        list.push(*item)?;
    }
    Ok(list)
}

// The words of a command on two files.
pub(crate) fn words(alloc: Global, mode: &[u8]) -> Result<List<Text>, OutOfMemory> {
    let mut words = List::new(alloc);
    words.push(Text::from_slice(alloc, mode)?)?;
    words.push(Text::from_slice(alloc, b"a.inp")?)?;
    words.push(Text::from_slice(alloc, b"a.rpt")?)?;
    Ok(words)
}

// A source of an input.
fn source(alloc: Global, input: &[u8], trouble: &Trouble) -> Result<MemSource, OutOfMemory>
    requires { 1 ≤ trouble.now.most }
{
    let fails = list(alloc, trouble.reads)?;
    Ok(MemSource::new(Text::from_slice(alloc, input)?, fails, trouble.most))
}

// Runs an input.
pub(crate) fn run_over(alloc: Global, input: &[u8], trouble: &Trouble) -> Result<Ran, OutOfMemory>
    requires { 1 ≤ trouble.now.most }
{
    let words = words(alloc, b"run")?;
    let mut inp = source(alloc, input, trouble)?;
    let mut hot_in = MemSource::new(Text::from_slice(alloc, b"")?, List::new(alloc), 1);
    let mut report = MemSink::new(alloc, 4096, list(alloc, trouble.puts)?, 16)?;
    let mut hot_out = MemSink::new(alloc, 0, List::new(alloc), 1)?;
    let answer = run_alone_top(
        alloc,
        &words,
        &mut inp,
        &mut hot_in,
        &mut report,
        &mut hot_out,
    );
    Ok(Ran { answer, report })
}

// Checks an input.
pub(crate) fn check_over(alloc: Global, input: &[u8], trouble: &Trouble) -> Result<Ran, OutOfMemory>
    requires { 1 ≤ trouble.now.most }
{
    let words = words(alloc, b"check")?;
    let mut inp = source(alloc, input, trouble)?;
    let mut report = MemSink::new(alloc, 4096, list(alloc, trouble.puts)?, 16)?;
    let answer = check_top(alloc, &words, &mut inp, &mut report);
    Ok(Ran { answer, report })
}
