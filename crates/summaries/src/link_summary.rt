// The summary of a link.
ghost use Rattle.std.specs.Prelude.{◌≡◌, ℕ, ◌<◌, length, replicate, IfOk, pos};
ghost use Rattle.std.specs.Int.RustNames.{unsigned_abs};
ghost use Rattle.fixed_num.specs.Ranges.{IsFlow};
ghost use Rattle.fixed_num.specs.Lists.{number};
ghost use Rattle.summaries.specs.Steps.{no_link_summary, link_summary_at, with_link};

use net_types::{List, OutOfMemory};
use std::alloc::Global;

/// What a run came to in a link: its greatest flow in either direction, in cm³/s, the moment at which it was first met,
/// in ms since the start, and its last flow.
#[derive(Clone, Copy, Debug, PartialEq, Eq)]
pub struct LinkSummary {
    pub max_flow: i64,
    pub at: i64,
    pub last_flow: i64,
}

// One link's summary with one state more, which may be the first.
fn with_state(summary: &LinkSummary, first: bool, flow: i64, moment: i64) -> LinkSummary
    requires flow { IsFlow flow }
    ensures { result ≡ with_link first summary.now (pos (unsigned_abs flow)) flow moment }
{
    let size = flow.abs();
    if first {
        return LinkSummary {
            max_flow: size,
            at: moment,
            last_flow: flow,
        };
    }
    if size > summary.max_flow {
        return LinkSummary {
            max_flow: size,
            at: moment,
            last_flow: flow,
        };
    }
    LinkSummary {
        max_flow: summary.max_flow,
        at: summary.at,
        last_flow: flow,
    }
}

// Takes one state more into every link's summary.
pub(crate) fn add_links(links: &mut [LinkSummary], first: bool, flows: &[i64], moment: i64)
    requires flows { length flows.now ≡ length links.old }
    requires flows_in { (l : ℕ) → IsFlow (number flows.now l) }
    ensures count { length links.new ≡ length links.old }
    ensures each { (l : ℕ) → l < length links.old → link_summary_at links.new l
        ≡ with_link first (link_summary_at links.old l)
        (pos (unsigned_abs (number flows.now l))) (number flows.now l) moment }
{
    for l in 0..links.len() {
        links[l] = with_state(&links[l], first, flows[l], moment);
    }
}

// So many summaries of no state.
pub(crate) fn new_links(alloc: Global, count: usize) -> Result<List<LinkSummary>, OutOfMemory>
    ensures { IfOk result (λ list. list ≡ replicate count no_link_summary) }
{
    let mut list = List::new(alloc);
    for _ in 0..count {
        list.push(LinkSummary {
            max_flow: 0,
            at: 0,
            last_flow: 0,
        })?;
    }
    Ok(list)
}
