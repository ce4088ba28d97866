// What the nodes of a project are.
ghost use Rattle.std.specs.Prelude.{◌≡◌};
ghost use Rattle.project_check.specs.Network.{has_outfall, is_outfall, is_storage};

use net_types::{Node, NodeKind};

pub(crate) fn is_outfall(node: &Node) -> bool
    ensures { result ≡ is_outfall node.now }
{
    matches!(node.kind, NodeKind::Outfall { .. })
}

pub(crate) fn is_storage(node: &Node) -> bool
    ensures { result ≡ is_storage node.now }
{
    matches!(node.kind, NodeKind::Storage { .. })
}

pub(crate) fn has_outfall(nodes: &[Node]) -> bool
    ensures { result ≡ has_outfall nodes.now }
{
    nodes.iter().any(|node| is_outfall(node))
}
