// The law of a conduit.
ghost use Rattle.std.specs.Prelude.{◌≡◌};
ghost use Rattle.conduit_flow.specs.Conduits.{IsConduit};
ghost use Rattle.link_eval.specs.Conduits.{conduit_law_of, conduit_of};
ghost use Rattle.link_eval.specs.Ends.{AreLinkEnds};
ghost use Rattle.link_eval.specs.Routed.{IsConduitKind};
ghost use Rattle.net_types.specs.Ranges.{LinkKindInRange};

use crate::ends::{LinkEnds, is_barred};
use conduit_flow::ConduitData;
use net_types::{LinkKind, Options};

/// What the share of a conduit depends on: its lengths and coefficients, and the table of its section or its number.
#[derive(Debug, Drop)]
pub struct ConduitLaw<T> {
    pub conduit: ConduitData,
    pub table: T,
}

// The law of a conduit whose table has this number.
pub(crate) fn conduit_law(
    kind: &LinkKind,
    table: usize,
    ends: &LinkEnds,
    options: &Options,
) -> ConduitLaw<usize>
    requires kind { LinkKindInRange kind.now }
    requires built { IsConduitKind kind.now }
    requires ends { AreLinkEnds ends.now }
    ensures value { result ≡ conduit_law_of kind.now table ends.now options.now }
    ensures good { IsConduit result.conduit }
{
    ConduitLaw {
        conduit: conduit(kind, ends, options),
        table,
    }
}

// A conduit as it is routed.
fn conduit(kind: &LinkKind, ends: &LinkEnds, options: &Options) -> ConduitData
    requires kind { LinkKindInRange kind.now }
    requires built { IsConduitKind kind.now }
    requires ends { AreLinkEnds ends.now }
    ensures value { result ≡ conduit_of kind.now ends.now options.now }
    ensures good { IsConduit result }
{
    let LinkKind::Conduit {
        length,
        n6,
        z1,
        z2,
        q_max,
        entry6,
        exit6,
        avg6,
        flap,
        ..
    } = kind
    else {
        unreachable!()
    };
    ConduitData {
        z1: ends.invert1 + *z1,
        z2: ends.invert2 + *z2,
        length: *length,
        n6: *n6,
        q_max: *q_max,
        entry6: *entry6,
        exit6: *exit6,
        avg6: *avg6,
        flap: is_barred(*flap, ends.gated),
        damping: options.damping,
        limiter: options.limiter,
    }
}
