// What a link sees at its ends.
ghost use Rattle.std.specs.Prelude.{◌≡◌, ◌||◌};
ghost use Rattle.link_eval.specs.Ends.{AreLinkEnds, ends_between, is_gated, short_link_of};
ghost use Rattle.net_types.specs.Ranges.{NodeInRange};

use net_types::{Node, NodeKind};
use short_links::ShortLink;

/// The inverts of the nodes at the ends of a link, in µm within 10^10, and whether a gated outfall stands at the
/// second.
#[derive(Clone, Copy, Debug, PartialEq, Eq)]
pub struct LinkEnds {
    pub invert1: i64,
    pub invert2: i64,
    pub gated: bool,
}

impl LinkEnds {
    // The ends of a link between these nodes.
    pub(crate) fn between(near: &Node, far: &Node) -> LinkEnds
        requires near { NodeInRange near.now }
        requires far { NodeInRange far.now }
        ensures value { result ≡ ends_between near.now far.now }
        ensures range { AreLinkEnds result }
    {
        LinkEnds {
            invert1: near.invert,
            invert2: far.invert,
            gated: is_gated(&far.kind),
        }
    }

    // What bars a link without length, which may have a flap gate, between these ends.
    pub(crate) fn short_link(&self, flap: bool) -> ShortLink
        requires { AreLinkEnds self.now }
        ensures { result ≡ short_link_of self.now flap }
    {
        ShortLink {
            flap: is_barred(flap, self.gated),
            invert1: self.invert1,
            invert2: self.invert2,
        }
    }
}

// Whether a node is a gated outfall.
fn is_gated(kind: &NodeKind) -> bool
    ensures { result ≡ is_gated kind.now }
{
    match kind {
        NodeKind::Outfall { gated, .. } => *gated,
        _ => false,
    }
}

// Whether a flap gate of its own or the gate of its outfall keeps water from running back.
pub(crate) fn is_barred(flap: bool, gated: bool) -> bool
    ensures { result ≡ (flap || gated) }
{
    if flap {
        return true;
    }
    gated
}
