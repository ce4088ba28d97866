// The law of a weir.
ghost use Rattle.std.specs.Prelude.{◌≡◌};
ghost use Rattle.fixed_num.specs.Ranges.{IsFlow, IsHead, IsWidth};
ghost use Rattle.link_eval.specs.Ends.{AreLinkEnds};
ghost use Rattle.link_eval.specs.Weirs.{IsWeirLaw, given_width, weir_law_of, weir_share_of};
ghost use Rattle.net_types.specs.Ranges.{SectionInRange, ShapeInRange, WeirInRange};
ghost use Rattle.phase_law.specs.Ranges.{LinkFixedInRange};

use crate::ends::LinkEnds;
use net_types::{Section, Shape};
use orifice_weir::{WeirData, weir_flow};
use phase_law::{LinkFixed, Share};
use short_links::{ShortLink, short_share};

/// What the share of a weir depends on: what bars it, and its opening.
#[derive(Clone, Copy, Debug, PartialEq, Eq)]
pub struct WeirLaw {
    pub ends: ShortLink,
    pub weir: WeirData,
}

// The law of a weir with this section.
pub(crate) fn weir_law(
    notch: bool,
    crest: i64,
    c6: i64,
    flap: bool,
    contractions: i64,
    section: &Section,
    ends: &LinkEnds,
) -> WeirLaw
    requires range { WeirInRange crest c6 contractions }
    requires given { SectionInRange section.now }
    requires ends { AreLinkEnds ends.now }
    ensures value { result ≡ weir_law_of notch crest c6 flap contractions section.now ends.now }
    ensures good { IsWeirLaw result }
{
    WeirLaw {
        ends: ends.short_link(flap),
        weir: WeirData {
            notch,
            crest: ends.invert1 + crest,
            full: section.full,
            width: given_width(&section.shape),
            c6,
            contractions,
        },
    }
}

// The width by which the opening of a weir is given, in µm.
fn given_width(shape: &Shape) -> i64
    requires { ShapeInRange shape.now }
    ensures value { result ≡ given_width shape.now }
    ensures range { IsWidth result }
{
    match shape {
        Shape::RectOpen { width } => *width,
        Shape::RectClosed { width } => *width,
        Shape::Trapezoidal { bottom, .. } => *bottom,
        Shape::Triangular { top } => *top,
        Shape::Circular => 0,
    }
}

// The share of a weir in a trial.
pub(crate) fn weir_share(
    law: &WeirLaw,
    fixed: &LinkFixed,
    first: bool,
    near: i64,
    far: i64,
    last: i64,
) -> Share
    requires law { IsWeirLaw law.now }
    requires fixed { LinkFixedInRange fixed.now }
    requires near { IsHead near }
    requires far { IsHead far }
    requires last { IsFlow last }
    ensures { result ≡ weir_share_of law.now fixed.now first near far last }
{
    let driven = weir_flow(&law.weir, fixed.setting, near, far);
    short_share(&law.ends, first, near, far, last, driven)
}
