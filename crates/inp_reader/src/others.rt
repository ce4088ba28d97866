// Lines that no section reads.
ghost use Rattle.std.specs.Prelude.{◌≡◌, [], OnOk};
ghost use Rattle.std.specs.Bool.{⊤};
ghost use Rattle.inp_lines.specs.Faults.{cut};
ghost use Rattle.inp_lines.specs.Gather.{gather};
ghost use Rattle.inp_lines.specs.Merge.{merged};
ghost use Rattle.inp_reader.specs.OtherLines.{other_fault, other_line_fault, treated_fault, treatment_of};

use inp_lines::{
    Fault, Line, LineWalk, SectionName, fault_of_kind, is_too_long, merge_faults, section_of,
    walk_lines,
};
use net_types::{FaultKind, LineFault, List, OutOfMemory};
use std::alloc::Global;

/// The walk over lines that no section reads, which holds nothing.
#[derive(Clone, Copy, Debug)]
struct OtherLines;

impl<'a> LineWalk<'a> for OtherLines {
    ghost fault_of = { λ _ _ line. other_fault line };

    ghost is_after = { λ _ _ _. ⊤ };

    fn step(&mut self, _alloc: Global, line: &'a Line) -> Result<Option<Fault>, OutOfMemory> {
        Ok(other_fault(line))
    }
}

/// The fault of a line for its length, or for where it stands.
fn other_fault(line: &Line) -> Option<Fault>
    ensures { result ≡ other_fault line.now }
{
    if is_too_long(line) {
        return Some(fault_of_kind(FaultKind::OverLimit, line.tokens.as_slice().len()));
    }
    treated_fault(line.section, section_of(line.bytes.as_slice()).is_some())
}

/// The fault of a line by the section in which it stands, and by whether it is a section line.
fn treated_fault(section: SectionName, names_section: bool) -> Option<Fault>
    ensures { result ≡ treated_fault (treatment_of section) names_section }
{
    match section {
        SectionName::Title
        | SectionName::Options
        | SectionName::Junctions
        | SectionName::Outfalls
        | SectionName::Storage
        | SectionName::Conduits
        | SectionName::Pumps
        | SectionName::Orifices
        | SectionName::Weirs
        | SectionName::XSections
        | SectionName::Losses => None,
        SectionName::Controls
        | SectionName::Inflows
        | SectionName::Dwf
        | SectionName::Curves
        | SectionName::TimeSeries
        | SectionName::Patterns => None,
        SectionName::RainGages
        | SectionName::Evaporation
        | SectionName::Subcatchments
        | SectionName::SubAreas
        | SectionName::Infiltration => None,
        SectionName::Report
        | SectionName::Tags
        | SectionName::Map
        | SectionName::Coordinates
        | SectionName::Vertices
        | SectionName::Polygons
        | SectionName::Symbols
        | SectionName::Labels
        | SectionName::Backdrop
        | SectionName::Profiles => None,
        SectionName::Before => Some(fault_of_kind(FaultKind::InvalidKeyword, 0)),
        SectionName::Unknown => {
            if names_section {
                Some(fault_of_kind(FaultKind::InvalidKeyword, 0))
            } else {
                None
            }
        }
        _ => Some(fault_of_kind(FaultKind::NotInProfile, 0)),
    }
}

/// Merges the faults of lines that no section reads.
pub(crate) fn read_others(
    alloc: Global,
    lines: &List<Line>,
    faults: &mut List<LineFault>,
) -> Result<(), OutOfMemory>
    ensures { OnOk result (faults.new ≡ cut (merged faults.old (cut (gather other_line_fault [] lines.now)))) }
{
    let mut mine = List::new(alloc);
    walk_lines(alloc, &mut OtherLines, lines, &mut mine)?;
    merge_faults(alloc, faults, &mine)?;
    Ok(())
}
