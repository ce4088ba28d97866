// Laws of nodes and links, in the words of their definitions.
ghost use Rattle.std.specs.Prelude.{◌≡◌, [], List as Sequence};
ghost use Rattle.net_types.specs.declared.network.Link.{Link as DataLink};
ghost use Rattle.net_types.specs.declared.network.Node.{Node as DataNode};
ghost use Rattle.inp_lines.specs.declared.line.Line.{Line as DataLine};
ghost use Rattle.inp_lines.specs.Gather.{gather};
ghost use Rattle.inp_lines.specs.Sources.{FaultsIn};
ghost use Rattle.inp_forms.specs.Context.{Context};
ghost use Rattle.inp_forms.specs.Laws.{MeanRecords};
ghost use Rattle.inp_network.specs.Links.{is_link_section, link_fault, link_forms, links_of};
ghost use Rattle.inp_network.specs.Nodes.{is_node_section, node_fault, node_forms, nodes_of};
ghost use Rattle.inp_network.specs.Soundness.{LinksAreSound, NodesAreSound};

/// Law: lines without a fault mean the nodes that are read of them, and no others.
pub fn nodes_have_one_meaning()
    ensures meant { (known : Context) (lines : Sequence DataLine) → gather (node_fault known) [] lines ≡ []
        → MeanRecords known node_forms lines (nodes_of known lines) }
    ensures one { (known : Context) (lines : Sequence DataLine) (a b : Sequence DataNode)
        → MeanRecords known node_forms lines a → MeanRecords known node_forms lines b → a ≡ b }
{}

/// Law: lines without a fault mean the links that are read of them, and no others.
pub fn links_have_one_meaning()
    ensures meant { (known : Context) (lines : Sequence DataLine) → gather (link_fault known) [] lines ≡ []
        → MeanRecords known link_forms lines (links_of known lines) }
    ensures one { (known : Context) (lines : Sequence DataLine) (a b : Sequence DataLink)
        → MeanRecords known link_forms lines a → MeanRecords known link_forms lines b → a ≡ b }
{}

/// Law: a line has at most one fault as a node, and only a line of a section of nodes has one.
pub fn node_faults_are_of_lines()
    ensures { (known : Context) → FaultsIn is_node_section (node_fault known) }
{}

/// Law: a line has at most one fault as a link, and only a line of a section of links has one.
pub fn link_faults_are_of_lines()
    ensures { (known : Context) → FaultsIn is_link_section (link_fault known) }
{}

/// Law: the nodes that lines mean lie in their ranges, and their numbers name objects.
pub fn nodes_are_sound()
    ensures { NodesAreSound }
{}

/// Law: the links that lines mean lie in their ranges, and their numbers name objects.
pub fn links_are_sound()
    ensures { LinksAreSound }
{}
