// Laws of what lines mean and of their faults, in the words of their definitions.
ghost use Rattle.std.specs.Prelude.{◌≡◌, List as Sequence, []};
ghost use Rattle.inp_lines.specs.declared.line.Line.{Line as DataLine};
ghost use Rattle.inp_lines.specs.Sources.{OneOn};
ghost use Rattle.net_types.specs.declared.project.Project.{Project as DataProject};
ghost use Rattle.inp_reader.specs.LineFaults.{fault_of_line, line_faults};
ghost use Rattle.inp_reader.specs.Meaning.{Means};

/// Lines mean at most one project.
pub fn lines_have_one_meaning()
    ensures { (lines : Sequence DataLine) (project other : DataProject)
        → Means lines project → Means lines other → project ≡ other }
{}

/// Lines without a fault mean a project.
pub fn lines_without_a_fault_have_a_meaning()
    ensures { (lines : Sequence DataLine) → line_faults lines ≡ [] → (project : DataProject) × Means lines project }
{}

/// A line has at most one fault, and the fault is that line's.
pub fn lines_have_one_fault()
    ensures { (lines before : Sequence DataLine) (line : DataLine)
        → OneOn line.number (fault_of_line lines before line) }
{}
