// A whole input.
ghost use Rattle.std.specs.Prelude.{◌≡◌, ◌≤◌, [], length, IfOk, List as Sequence};
ghost use Rattle.inp_lines.specs.declared.line.Line.{Line as DataLine};
ghost use Rattle.inp_lines.specs.Faults.{cut};
ghost use Rattle.inp_lines.specs.Lines.{lines_of};
ghost use Rattle.inp_reader.specs.LineFaults.{line_faults};
ghost use Rattle.inp_reader.specs.Meaning.{Means};
ghost use Rattle.inp_reader.specs.Reading.{ReadsAs};
ghost use Rattle.inp_reader.specs.Soundness.{AcceptsSound};
ghost use Rattle.net_types.specs.Sound.{IsSound};

use crate::project::read_lines;
use inp_lines::split_lines;
use net_types::{LineFault, List, OutOfMemory, Project};
use std::alloc::Global;

/// What an input is read as.
#[derive(Debug, Drop)]
pub enum Read {
    /// The project that the lines mean; no line is at fault.
    Accepted(Project),
    /// The first hundred faults of lines, at least one, in the order of lines.
    Refused(List<LineFault>),
}

/// Reads an input of at most 33,554,432 bytes (User's Manual, appendix D; this project's profile). It is refused
/// exactly where some line is at fault.
pub fn read_project(alloc: Global, input: &[u8]) -> Result<Read, OutOfMemory>
    requires short { length input.now ≤ 33_554_432 }
    ensures reading { IfOk result (ReadsAs (lines_of input.now)) }

    // For those who compute with the project.
    ensures sound { IfOk result AcceptsSound }
{
    let lines = split_lines(alloc, input)?;
    let mut faults = List::new(alloc);
    let project = read_lines(alloc, &lines, &mut faults)?;
    Ok(read_of(project, faults))
}

/// The project where there is no fault.
fn read_of(project: Project, faults: List<LineFault>) -> Read
    ensures reading { (lines : Sequence DataLine) → faults ≡ cut (line_faults lines)
        → (line_faults lines ≡ [] → Means lines project) → ReadsAs lines result }
    ensures sound { (lines : Sequence DataLine) → faults ≡ cut (line_faults lines)
        → (line_faults lines ≡ [] → IsSound project) → AcceptsSound result }
{
    if faults.as_slice().is_empty() {
        Read::Accepted(project)
    } else {
        Read::Refused(faults)
    }
}
