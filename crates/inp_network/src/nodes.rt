// Nodes: junctions, outfalls and storage units share one numbering.
ghost use Rattle.std.specs.Prelude.{◌≡◌, ◌++◌, [], option_map, IfOk, OnOk};
ghost use Rattle.inp_lines.specs.Faults.{cut};
ghost use Rattle.inp_lines.specs.Gather.{gather};
ghost use Rattle.inp_lines.specs.Names.{number_in};
ghost use Rattle.inp_lines.specs.Numbers.{numbers_of};
ghost use Rattle.inp_forms.specs.Context.{context_of};
ghost use Rattle.inp_forms.specs.Forms.{form_name, form_reading};
ghost use Rattle.inp_forms.specs.Laws.{MeanRecords};
ghost use Rattle.inp_network.specs.Nodes.{is_at, node_fault, node_forms, node_name, node_names, nodes_of};

use crate::junctions::Junctions;
use crate::outfalls::{name_outfall, read_outfall};
use crate::storages::{name_storage, read_storage};
use inp_forms::{Known, name_row, read_row};
use inp_lines::{
    Kind, Line, Names, Naming, Reading, RecordKind, SectionName, number_names, read_kind,
};
use inp_values::is_word;
use net_types::{LineFault, List, Node, OutOfMemory};
use std::alloc::Global;

/// The names of nodes.
#[derive(Clone, Copy, Debug)]
struct NodeNames;

impl<'a> Kind<'a> for NodeNames {
    ghost name_of = { λ _. node_name };

    fn name(&self, line: &'a Line) -> Option<&'a [u8]> {
        name_of_node(line)
    }
}

/// Nodes, read by what is known of the whole input.
#[derive(Clone, Copy)]
struct Nodes<'a, 'n> {
    known: &'n Known<'a>,
}

impl<'a, 'n> Kind<'a> for Nodes<'a, 'n> {
    ghost name_of = { λ _. node_name };

    fn name(&self, line: &'a Line) -> Option<&'a [u8]> {
        name_of_node(line)
    }
}

impl<'a, 'n> RecordKind<'a> for Nodes<'a, 'n> {
    type Record = Node;

    ghost reading_of = { λ nodes. form_reading (context_of nodes.known.now) node_forms };

    fn read(
        &self,
        alloc: Global,
        line: &'a Line,
        naming: Naming,
    ) -> Result<Reading<Node>, OutOfMemory> {
        match line.section {
            SectionName::Junctions => read_row::<6, Junctions>(alloc, self.known, naming, line),
            SectionName::Outfalls => read_outfall(alloc, self.known, naming, line),
            SectionName::Storage => read_storage(alloc, self.known, naming, line),
            _ => Ok(Reading::Other),
        }
    }
}

/// Numbers the nodes that lines define by their names, from 0 in the order of their lines.
pub fn number_nodes<'a>(alloc: Global, lines: &'a List<Line>) -> Result<Names<'a>, OutOfMemory>
    ensures { IfOk result (λ names. numbers_of names ≡ number_in (node_names lines.now)) }
{
    number_names(alloc, &NodeNames, lines)
}

/// Reads the nodes that lines give, appends them, and gives the first hundred faults of their lines (User's Manual,
/// sections [JUNCTIONS], [OUTFALLS] and [STORAGE]). Where none of them is at fault, these are the nodes that the lines
/// mean.
#[tactic(auto, unfolding(crate::specs::Nodes::nodes_of))]
pub fn read_nodes<'a>(
    alloc: Global,
    known: &Known<'a>,
    lines: &'a List<Line>,
    nodes: &mut List<Node>,
) -> Result<List<LineFault>, OutOfMemory>
    ensures nodes { OnOk result (nodes.new ≡ nodes.old ++ nodes_of (context_of known.now) lines.now) }
    ensures faults { IfOk result (λ faults. faults ≡ cut (gather (node_fault (context_of known.now)) [] lines.now)) }
{
    read_kind(alloc, &Nodes { known }, lines, nodes)
}

/// The name that a line defines for a node.
fn name_of_node(line: &Line) -> Option<&[u8]>
    ensures { option_map (λ name. name.now) result ≡ node_name line.now }
{
    match line.section {
        SectionName::Junctions => name_row::<6, Junctions>(line),
        SectionName::Outfalls => name_outfall(line),
        SectionName::Storage => name_storage(line),
        _ => None,
    }
}

/// Whether the item at a place of a line is this keyword.
pub(crate) fn is_word_at(line: &Line, place: usize, word: &[u8]) -> bool
    ensures { result ≡ is_at line.now.tokens place word.now }
{
    match line.tokens.as_slice().get(place) {
        Some(token) => is_word(token.as_slice(), word),
        None => is_word(&[], word),
    }
}
