// The first half of a trial: the share of every link, and their sums at the nodes.
ghost use Rattle.std.specs.Prelude.{◌≡◌, ℕ, ◌<◌, pos, length, replicate};
ghost use Rattle.std.specs.Int.{int_min};
ghost use Rattle.fixed_num.specs.Lists.{number, list_of};
ghost use Rattle.fixed_num.specs.Ranges.{IsFlow};
ghost use Rattle.fixed_num.specs.Sums.{least_below};
ghost use Rattle.phase_law.specs.Ranges.{ShareInRange};
ghost use Rattle.trial_model.specs.Fits.{Fits, HeadsFit, FlowsFit, LinksFit};
ghost use Rattle.trial_model.specs.Trial.{share_of, inflow_of, outflow_of, area_of, with_flows};

use crate::nets::Nets;
use crate::sums::{add_share, clear, copy};
use phase_law::{LinkFixed, PhaseLaw, Share};

/// The share of one link.
fn share_at<P: PhaseLaw>(
    law: &P,
    link: u32,
    links: &[LinkFixed],
    heads: &[i64],
    flows: &[i64],
    first: bool,
) -> Share
    requires link { link < (P.law law.now).links }
    requires links { LinksFit (P.law law.now) links.now }
    requires heads { HeadsFit (P.law law.now) heads.now }
    requires flows { length flows.now ≡ (P.law law.now).links }
    requires last { IsFlow (number flows.now link) }
    ensures value { result ≡ share_of (P.law law.now) links.now heads.now flows.now first link }
    ensures range { ShareInRange result }
{
    let (near, far) = law.ends(link);
    law.link_share(
        link,
        &links[link as usize],
        first,
        heads[near as usize],
        heads[far as usize],
        flows[link as usize],
    )
}

/// The lesser of a time (ms) and the time of a share.
fn lesser(least: i64, share: &Share) -> i64
    ensures { result ≡ int_min least share.now.time }
{
    if least <= share.time {
        least
    } else {
        share.time
    }
}

/// Takes the share of every link: its flow replaces the last one, and it is added to the sums of its ends. Gives the
/// least time of all links (ms), at most 3,600,000.
fn make_flows<P: PhaseLaw>(
    law: &P,
    first: bool,
    links: &[LinkFixed],
    heads: &[i64],
    flows: &mut [i64],
    inflows: &mut [i64],
    outflows: &mut [i64],
    areas: &mut [i64],
) -> i64
    requires links { LinksFit (P.law law.now) links.now }
    requires heads { HeadsFit (P.law law.now) heads.now }
    requires flows { FlowsFit (P.law law.now) flows.old }
    requires inflows { inflows.old ≡ replicate (P.law law.now).nodes (pos 0) }
    requires outflows { outflows.old ≡ replicate (P.law law.now).nodes (pos 0) }
    requires areas { areas.old ≡ replicate (P.law law.now).nodes (pos 0) }
    ensures flows { let l = P.law law.now in
        flows.new ≡ list_of (λ k. (share_of l links.now heads.now flows.old first k).q) l.links }
    ensures inflows { let l = P.law law.now in
        inflows.new
        ≡ list_of (λ n. pos (inflow_of l (λ k. (share_of l links.now heads.now flows.old first k).q) n)) l.nodes }
    ensures outflows { let l = P.law law.now in
        outflows.new
        ≡ list_of (λ n. pos (outflow_of l (λ k. (share_of l links.now heads.now flows.old first k).q) n)) l.nodes }
    ensures areas { let l = P.law law.now in
        areas.new ≡ list_of (λ n. pos (area_of l (share_of l links.now heads.now flows.old first) n)) l.nodes }
    ensures least { let l = P.law law.now in
        result ≡ least_below (pos 3_600_000) (λ k. (share_of l links.now heads.now flows.old first k).time) l.links }
{
    let mut least = 3_600_000;
    for link in 0..law.links() {
        let (near, far) = law.ends(link);
        let share = share_at(law, link, links, heads, flows, first);
        add_share(near, far, &share, inflows, outflows, areas);
        flows[link as usize] = share.q;
        least = lesser(least, &share);
    }
    least
}

/// Makes the first half of a trial.
pub(crate) fn flow_phase<P: PhaseLaw>(law: &P, nets: &mut Nets, first: bool)
    requires { Fits (P.law law.now) nets.old }
    ensures { nets.new ≡ with_flows (P.law law.now) nets.old first }
{
    copy(&nets.heads, &mut nets.read_heads);
    clear(&mut nets.inflows);
    clear(&mut nets.outflows);
    clear(&mut nets.areas);
    let links = nets.links.as_slice();
    let heads = nets.read_heads.as_slice();
    let flows = nets.flows.as_mut_slice();
    let inflows = nets.inflows.as_mut_slice();
    let outflows = nets.outflows.as_mut_slice();
    let areas = nets.areas.as_mut_slice();
    nets.least = make_flows(law, first, links, heads, flows, inflows, outflows, areas);
}
