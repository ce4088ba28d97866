// The sections of the lines that define links.
ghost use Rattle.std.specs.Prelude.{◌≡◌, IfOk};
ghost use Rattle.inp_network.specs.Links.{link_name, link_section_reading, link_sections};

use crate::links::name_of_link;
use inp_lines::{Kind, Line, Naming, Reading, RecordKind, SectionName, read_kind};
use net_types::{List, OutOfMemory};
use std::alloc::Global;

/// The sections of the lines that define links.
#[derive(Clone, Copy, Debug)]
struct LinkSections;

impl<'a> Kind<'a> for LinkSections {
    ghost name_of = { λ _. link_name };

    fn name(&self, line: &'a Line) -> Option<&'a [u8]> {
        name_of_link(line)
    }
}

impl<'a> RecordKind<'a> for LinkSections {
    type Record = SectionName;

    ghost reading_of = { λ _. link_section_reading };

    fn read(
        &self,
        _alloc: Global,
        line: &'a Line,
        naming: Naming,
    ) -> Result<Reading<SectionName>, OutOfMemory> {
        Ok(section_of_link(line, naming))
    }
}

/// The section of a line that defines a link.
fn section_of_link(line: &Line, naming: Naming) -> Reading<SectionName>
    ensures { result ≡ link_section_reading naming line.now }
{
    match (naming, name_of_link(line)) {
        (Naming::First, Some(_)) => Reading::Record(line.section),
        _ => Reading::Other,
    }
}

/// For each link that lines define the section of its line, in the order of the links' numbers: a link is a conduit, a
/// pump, an orifice or a weir by its section.
#[tactic(auto, unfolding(crate::specs::Links::link_sections))]
pub fn read_link_sections(
    alloc: Global,
    lines: &List<Line>,
) -> Result<List<SectionName>, OutOfMemory>
    ensures { IfOk result (λ sections. sections ≡ link_sections lines.now) }
{
    let mut sections = List::new(alloc);
    let _faults = read_kind(alloc, &LinkSections, lines, &mut sections)?;
    Ok(sections)
}
