// Laws of the walks over lines, in the words of their definitions.
ghost use Rattle.inp_lines.specs.Laws.{MergesInLineOrder};

/// Faults of sections that no line shares: one list of them merged into another, both cut, is the list of both
/// sources in the order of lines, cut.
pub fn merges_in_line_order()
    ensures { MergesInLineOrder }
{}
