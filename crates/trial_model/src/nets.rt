ghost use Rattle.std.specs.Prelude.{◌≡◌, IfOk, replicate};
ghost use Rattle.phase_law.specs.Law.{Law};
ghost use Rattle.trial_model.specs.Fits.{Fits};
ghost use Rattle.trial_model.specs.Start.{resting};

use net_types::{List, OutOfMemory};
use phase_law::{LinkFixed, NodeFixed};
use std::alloc::Global;

/// The state of a network between trials.
///
/// `heads` (µm), `inflows`, `outflows` (cm³/s) and `areas` (mm²) have an item for each node, `flows`
/// (cm³/s) one for each link. Inflows, outflows and areas are what the nodes got of their links in the last
/// trial, `read_heads` the heads that it read, and `least` the least of 3,600,000 and the times of its links
/// (ms). `links` and `nodes` are what stays the same over the trials of a step.
#[derive(Debug, Drop)]
pub struct Nets {
    pub heads: List<i64>,
    pub flows: List<i64>,
    pub inflows: List<i64>,
    pub outflows: List<i64>,
    pub areas: List<i64>,
    pub read_heads: List<i64>,
    pub links: List<LinkFixed>,
    pub nodes: List<NodeFixed>,
    pub least: i64,
}

impl Nets {
    /// A state of so many nodes and links in which all numbers are 0. It fits every law of these counts.
    pub fn with_room(alloc: Global, nodes: u32, links: u32) -> Result<Nets, OutOfMemory>
        ensures rests { IfOk result (λ nets. nets ≡ resting nodes links) }
        ensures fits { IfOk result (λ nets. (law : Law) → law.nodes ≡ nodes → law.links ≡ links → Fits law nets) }
    {
        let no_link = LinkFixed {
            q_old: 0,
            a_old: 0,
            setting: 0,
            dt: 0,
        };
        let no_node = NodeFixed {
            h_old: 0,
            net_old: 0,
            lateral: 0,
            stage: 0,
            dt: 0,
        };
        Ok(Nets {
            heads: copies(alloc, 0, nodes)?,
            flows: copies(alloc, 0, links)?,
            inflows: copies(alloc, 0, nodes)?,
            outflows: copies(alloc, 0, nodes)?,
            areas: copies(alloc, 0, nodes)?,
            read_heads: copies(alloc, 0, nodes)?,
            links: copies(alloc, no_link, links)?,
            nodes: copies(alloc, no_node, nodes)?,
            least: 0,
        })
    }

    /// A state of no nodes and no links. It takes no memory.
    pub fn empty(alloc: Global) -> Nets
        ensures { result ≡ resting 0 0 }
    {
        Nets {
            heads: List::new(alloc),
            flows: List::new(alloc),
            inflows: List::new(alloc),
            outflows: List::new(alloc),
            areas: List::new(alloc),
            read_heads: List::new(alloc),
            links: List::new(alloc),
            nodes: List::new(alloc),
            least: 0,
        }
    }
}

/// So many copies of an item.
fn copies<T: Copy + Drop>(alloc: Global, item: T, count: u32) -> Result<List<T>, OutOfMemory>
    ensures { IfOk result (λ list. list ≡ replicate count item) }
{
    let mut list = List::new(alloc);
    for _ in 0..count {
        list.push(item)?;
    }
    Ok(list)
}
