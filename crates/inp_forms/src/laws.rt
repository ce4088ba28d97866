// Laws of forms, in the words of their definitions.
ghost use Rattle.inp_forms.specs.Laws.{FaultsAreOfForms, RecordsAreMeant, RecordsAreOne};
ghost use Rattle.inp_forms.specs.Meaning.{ValuesAreRead};

/// Law: the values that are read of a line are those that its items mean, and a line whose items mean values is read.
pub fn values_are_read()
    ensures { ValuesAreRead }
{}

/// Law: where no line of a kind is at fault, the records that are read are those that the lines mean, and the lines
/// mean no others.
pub fn records_are_meant<R>()
    ensures meant { RecordsAreMeant R }
    ensures one { RecordsAreOne R }
{}

/// Law: a line has at most one fault by a form, and only a line of a section that has a form.
pub fn faults_are_of_forms<R>()
    ensures { FaultsAreOfForms R }
{}
