// Laws of lines with owners, in the words of their definitions.
ghost use Rattle.inp_owners.specs.Owners.{FaultsAreOwned, OwnedIsMeant};

/// Law: where no line is at fault, what is read of the owners' lines is what the lines mean.
pub fn owned_is_meant<R>()
    ensures { OwnedIsMeant R }
{}

/// Law: a line has at most one fault as the line of an owner, and only a line of a section that has a form.
pub fn owned_faults_are_of_lines<R>()
    ensures { FaultsAreOwned R }
{}
