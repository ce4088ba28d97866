// A kind of record with names of another kind in it: how a crate above reads its sections.
ghost use Rattle.std.specs.Prelude.{◌≡◌, ◌≤◌, ◌++◌, [], length, IfOk, OnOk};
ghost use Rattle.inp_lines.specs.Example.{node_name, pipe_name, pipe_ends_of, pipe_of, pipe_reading};
ghost use Rattle.inp_lines.specs.Faults.{cut};
ghost use Rattle.inp_lines.specs.Gather.{gather, record_at, fault_at};
ghost use Rattle.inp_lines.specs.Merge.{merged};
ghost use Rattle.inp_lines.specs.Names.{number_in, defined};
ghost use Rattle.inp_lines.specs.Numbers.{numbers_of};

use crate::{
    Fault, Kind, Line, Names, Naming, Reading, RecordKind, SectionName, copy_token, is_too_long,
    merge_faults, name_with, needed, new_name, number_names, number_of, read_kind, split_lines,
    too_few,
};
use net_types::{FaultKind, LineFault, List, OutOfMemory, Text};
use std::alloc::Global;
use std::test::Fail;

// Nodes, by their names alone.
#[derive(Clone, Copy, Debug)]
struct Nodes;

impl<'a> Kind<'a> for Nodes {
    ghost name_of = { λ _. node_name };

    fn name(&self, line: &'a Line) -> Option<&'a [u8]> {
        match line.section {
            SectionName::Junctions => name_with(line, 2),
            _ => None,
        }
    }
}

// Pipes, with the numbers of the nodes.
#[derive(Clone, Copy)]
struct Pipes<'n, 'a> {
    nodes: &'n Names<'a>,
}

impl<'n, 'a> Kind<'a> for Pipes<'n, 'a> {
    ghost name_of = { λ _. pipe_name };

    fn name(&self, line: &'a Line) -> Option<&'a [u8]> {
        match line.section {
            SectionName::Conduits => name_with(line, 3),
            _ => None,
        }
    }
}

impl<'n, 'a> RecordKind<'a> for Pipes<'n, 'a> {
    type Record = (Text, u32, u32);

    ghost reading_of = { λ pipes. pipe_reading (numbers_of pipes.nodes.now) };

    fn read(
        &self,
        alloc: Global,
        line: &'a Line,
        naming: Naming,
    ) -> Result<Reading<(Text, u32, u32)>, OutOfMemory> {
        match line.section {
            SectionName::Conduits => read_pipe(alloc, self.nodes, line, naming),
            _ => Ok(Reading::Other),
        }
    }
}

// A line of CONDUITS as a pipe.
fn read_pipe<'a>(
    alloc: Global,
    nodes: &Names<'a>,
    line: &'a Line,
    naming: Naming,
) -> Result<Reading<(Text, u32, u32)>, OutOfMemory>
    ensures { IfOk result (λ reading. reading ≡ pipe_of (numbers_of nodes.now) naming line.now) }
{
    if is_too_long(line) {
        return Ok(Reading::Other);
    }
    match pipe_ends(nodes, naming, line.tokens.as_slice()) {
        Err(fault) => Ok(Reading::Faulty(fault)),
        Ok((from, to)) => Ok(Reading::Record((copy_token(alloc, line, 0)?, from, to))),
    }
}

// The numbers of a pipe's nodes, or the first fault of its line.
fn pipe_ends<'a>(nodes: &Names<'a>, naming: Naming, tokens: &'a [Text]) -> Result<(u32, u32), Fault>
    ensures { result ≡ pipe_ends_of (numbers_of nodes.now) naming tokens.now }
{
    let [_, first, second, ..] = tokens else {
        return Err(too_few(tokens));
    };
    new_name(naming)?;
    let from = needed(
        number_of(nodes, first.as_slice()),
        FaultKind::UndefinedName,
        1,
    )?;
    let to = needed(
        number_of(nodes, second.as_slice()),
        FaultKind::UndefinedName,
        2,
    )?;
    Ok((from, to))
}

// Reads the pipes of an input, and merges their faults into those that were found before.
fn read_pipes(
    alloc: Global,
    lines: &List<Line>,
    pipes: &mut List<(Text, u32, u32)>,
    faults: &mut List<LineFault>,
) -> Result<(), OutOfMemory>
    ensures pipes { OnOk result (pipes.new
        ≡ pipes.old ++ gather (record_at pipe_name (pipe_reading (number_in (defined node_name lines.now)))) [] lines.now) }
    ensures faults { OnOk result (faults.new ≡ cut (merged faults.old
        (cut (gather (fault_at pipe_name (pipe_reading (number_in (defined node_name lines.now)))) [] lines.now)))) }
{
    let nodes = number_names(alloc, &Nodes, lines)?;
    let kind = Pipes { nodes: &nodes };
    let found = read_kind(alloc, &kind, lines, pipes)?;
    merge_faults(alloc, faults, &found)?;
    Ok(())
}

#[test]
fn reads_pipes_between_nodes_of_later_lines(rt: HostRuntime) -> Result<(), Fail> {
    let alloc = rt.alloc();
    let lines = split_lines(
        alloc,
        b"[CONDUITS]\nC1 J2 J1\n[JUNCTIONS]\nJ1 0\nJ3\nJ2 0\n[COND]\nC1 J1 J2\nC2 J1\nC3 J1 J3",
    )?;
    let mut pipes = List::new(alloc);
    let mut faults = List::new(alloc);
    read_pipes(alloc, &lines, &mut pipes, &mut faults)?;
    assert_eq!(rt; pipes.as_slice().len(), 1);
    for (name, from, to) in pipes.as_slice() {
        assert_eq!(rt; name.as_slice(), b"C1".as_slice());
        assert_eq!(rt; (*from, *to), (1, 0));
    }
    let expected = [
        (8, 207, b"C1".as_slice()),
        (9, 203, b"J1".as_slice()),
        (10, 209, b"J3".as_slice()),
    ];
    assert_eq!(rt; faults.as_slice().len(), 3);
    for (fault, (line, number, token)) in faults.as_slice().iter().zip(expected.iter()) {
        assert_eq!(rt; (fault.line, fault.number), (*line, *number));
        assert_eq!(rt; fault.token.as_slice(), *token);
    }
    Ok(())
}
