// Laws of control rules, in the words of their definitions.
ghost use Rattle.inp_rules.specs.Laws.{FaultsAreOfRules, RulesAreFew, RulesAreMeant, RulesAreOne};
ghost use Rattle.inp_rules.specs.Laws.{RulesAreSound};

/// Law: a line has at most one fault as a line of a rule, and only a line of the section has one.
pub fn rule_faults_are_of_lines()
    ensures { FaultsAreOfRules }
{}

/// Law: where no line is at fault, the rules that are read are those that the lines mean, and the lines mean no others.
pub fn rules_have_one_meaning()
    ensures meant { RulesAreMeant }
    ensures one { RulesAreOne }
{}

/// Law: where no line is at fault, the rules that lines give lie in their ranges, and their numbers name objects.
pub fn rules_are_sound()
    ensures { RulesAreSound }
{}

/// Law: where no line is at fault, lines give at most as many rules, and tests and actions, as may be.
pub fn rules_are_few()
    ensures { RulesAreFew }
{}
