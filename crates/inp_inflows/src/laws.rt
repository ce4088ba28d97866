// Laws of counted lines, of inflows and of dry weather flows, in the words of their definitions.
ghost use Rattle.inp_inflows.specs.Laws.{CountedAreFew, CountedAreMeant, CountedAreOne, DryFlowsAreSound};
ghost use Rattle.inp_inflows.specs.Laws.{FaultsAreCounted, InflowsAreSound};

/// Law: where no line of a kind is at fault, the records that are read are those that the lines mean, and the lines
/// mean no others.
pub fn counted_have_one_meaning<R>()
    ensures meant { CountedAreMeant R }
    ensures one { CountedAreOne R }
{}

/// Law: a line has at most one fault as a line of a kind, and only a line of its section has one.
pub fn counted_faults_are_of_lines<R>()
    ensures { FaultsAreCounted R }
{}

/// Law: lines give at most as many records of a kind as may be.
pub fn counted_are_few<R>()
    ensures { CountedAreFew R }
{}

/// Law: the direct inflows that lines mean lie in their ranges, and their numbers name objects.
pub fn inflows_are_sound()
    ensures { InflowsAreSound }
{}

/// Law: the dry weather flows that lines mean lie in their ranges, and their numbers name objects.
pub fn dry_flows_are_sound()
    ensures { DryFlowsAreSound }
{}
