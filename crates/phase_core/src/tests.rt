ghost use Rattle.std.specs.Prelude.{◌≡◌, ◌<◌, ◌≤◌};
ghost use Rattle.phase_core.specs.EqualLinks.{equal_links, equal_links_good};

use crate::program::Core;
use net_types::OutOfMemory;
use phase_law::{LinkFixed, NodeFixed, NodeNext, PhaseLaw, Share};
use phase_machine::{Act, Event};
use std::alloc::Global;
use trial_model::{Nets, trial_alone};

/// Links from node 1 to node 0, each with the same share; the two nodes keep their heads.
#[derive(Clone, Copy)]
struct EqualLinks {
    links: u32,
    ghost few: { links ≤ 20_000 },
}

impl PhaseLaw for EqualLinks {
    ghost law = { λ s. equal_links s.links };

    ghost good = { λ s. equal_links_good s.links s.few };

    fn nodes(&self) -> u32 {
        2
    }

    fn links(&self) -> u32 {
        self.links
    }

    fn head_limit(&self) -> i64 {
        1_000_000
    }

    fn ends(&self, _link: u32) -> (u32, u32) {
        (1, 0)
    }

    fn link_share(
        &self,
        _link: u32,
        _fixed: &LinkFixed,
        _first: bool,
        _near: i64,
        _far: i64,
        _last: i64,
    ) -> Share {
        Share {
            q: 7,
            area1: 1,
            area2: 2,
            time: 3_600_000,
        }
    }

    fn node_next(
        &self,
        _node: u32,
        _fixed: &NodeFixed,
        _first: bool,
        _inflow: i64,
        _outflow: i64,
        _area: i64,
        last: i64,
    ) -> NodeNext {
        NodeNext {
            head: last,
            settled: true,
        }
    }
}

/// The acts on a link's item, and those on a node's.
const LINK_ACTS: [Act; 17] = [
    Act::Claim,
    Act::LoadInput,
    Act::LoadInput,
    Act::LoadInput,
    Act::LoadInput,
    Act::LoadInput,
    Act::LoadInput,
    Act::LoadInput,
    Act::LoadInput,
    Act::AddFirst,
    Act::AddSecond,
    Act::AddAreaFirst,
    Act::AddAreaSecond,
    Act::OfferTime,
    Act::PutFlow,
    Act::Done,
    Act::Look,
];

const NODE_ACTS: [Act; 14] = [
    Act::Claim,
    Act::LoadInput,
    Act::LoadInput,
    Act::LoadInput,
    Act::LoadInput,
    Act::LoadInput,
    Act::LoadInput,
    Act::LoadInput,
    Act::LoadSums,
    Act::LoadSums,
    Act::LoadSums,
    Act::PutHead,
    Act::Done,
    Act::Look,
];

/// Makes the step of an act of a seat, if it has one, and tells whether it had.
fn made(core: &mut Core<EqualLinks>, seat: u32, act: Act) -> bool {
    core.phase() < 1_000_000 && core.step(Event { seat, act }).is_ok()
}

/// Makes acts of a seat, and tells whether all had a step.
fn made_all(core: &mut Core<EqualLinks>, seat: u32, acts: &[Act]) -> bool {
    let mut all = true;
    for act in acts {
        all = made(core, seat, *act) && all;
    }
    all
}

/// Makes so many resets, and opens the links of a trial.
fn opened_links(core: &mut Core<EqualLinks>) -> bool {
    made_all(core, 0, &[Act::Reset; 9]) && made(core, 0, Act::OpenLinks)
}

/// A machine of so many links with two seats beside the lead's.
fn start(alloc: Global, links: u32) -> Result<Core<EqualLinks>, OutOfMemory>
    requires { links ≤ 20_000 }
{
    let nets = Nets::with_room(alloc, 2, links)?;
    Core::start(alloc, EqualLinks { links }, nets, 3)
}

/// The state that one worker makes of a state at rest by a trial.
fn state_of_one(alloc: Global, links: u32) -> Result<Nets, OutOfMemory>
    requires { links ≤ 20_000 }
{
    let mut nets = Nets::with_room(alloc, 2, links)?;
    trial_alone(&EqualLinks { links }, &mut nets, true);
    Ok(nets)
}

/// Whether two states are equal.
fn are_same(a: &Nets, b: &Nets) -> bool {
    a.heads.as_slice() == b.heads.as_slice()
        && a.flows.as_slice() == b.flows.as_slice()
        && a.inflows.as_slice() == b.inflows.as_slice()
        && a.outflows.as_slice() == b.outflows.as_slice()
        && a.areas.as_slice() == b.areas.as_slice()
        && a.least == b.least
}

/// Whether the trial closed last is a state.
fn has_made(core: &Core<EqualLinks>, state: &Nets) -> bool {
    match core.trial() {
        Some(nets) => are_same(nets, state),
        None => false,
    }
}

#[test]
fn forty_links_are_shared(rt: HostRuntime) -> Result<(), OutOfMemory> {
    let mut core = start(rt.alloc(), 40)?;
    let mut all = opened_links(&mut core)
        && made(&mut core, 1, Act::Look)
        && made(&mut core, 2, Act::Look);
    for _ in 0..20 {
        all = made_all(&mut core, 1, &LINK_ACTS) && made_all(&mut core, 2, &LINK_ACTS) && all;
    }
    all = made_all(&mut core, 0, &[Act::LoadDone, Act::Reset, Act::OpenNodes]) && all;
    all = made(&mut core, 1, Act::Look) && made(&mut core, 2, Act::Look) && all;
    all = made_all(&mut core, 1, &NODE_ACTS) && made_all(&mut core, 2, &NODE_ACTS) && all;
    all = made(&mut core, 0, Act::LoadDone) && all;
    assert!(rt; all);
    let state = state_of_one(rt.alloc(), 40)?;
    assert_eq!(rt; state.inflows.as_slice(), [280, 0].as_slice());
    assert_eq!(rt; state.areas.as_slice(), [80, 40].as_slice());
    assert!(rt; has_made(&core, &state));
    Ok(())
}

#[test]
fn a_late_claim_takes_the_link_of_the_next_trial(rt: HostRuntime) -> Result<(), OutOfMemory> {
    let mut core = start(rt.alloc(), 1)?;
    let mut all = opened_links(&mut core)
        && made(&mut core, 1, Act::Look)
        && made(&mut core, 2, Act::Look);
    all = made_all(&mut core, 2, &LINK_ACTS) && all;
    all = made_all(&mut core, 0, &[Act::LoadDone, Act::Reset, Act::OpenNodes]) && all;
    all = made(&mut core, 2, Act::Look)
        && made_all(&mut core, 2, &NODE_ACTS)
        && made_all(&mut core, 2, &NODE_ACTS)
        && all;
    all = made(&mut core, 0, Act::LoadDone) && opened_links(&mut core) && all;
    assert!(rt; all && made(&mut core, 1, Act::Claim));
    assert!(rt; made(&mut core, 0, Act::LoadDone) && !core.has_flows());
    assert!(rt; !made(&mut core, 0, Act::OpenNodes));
    assert!(rt; made_all(&mut core, 1, &LINK_ACTS[1..]) && made(&mut core, 0, Act::LoadDone));
    assert!(rt; core.has_flows());
    Ok(())
}

/// The next number of a row of draws.
fn next_seed(seed: u64) -> u64 {
    seed.wrapping_mul(6_364_136_223_846_793_005)
        .wrapping_add(1_442_695_040_888_963_407)
}

/// A draw below a number.
fn drawn(seed: u64, below: u32) -> u32
    requires { 0 < below }
    ensures { result < below }
{
    ((seed >> 33) % below as u64) as u32
}

/// The act of a number.
fn act_of(number: u32) -> Act {
    match number {
        0 => Act::Look,
        1 => Act::Claim,
        2 => Act::LoadInput,
        3 => Act::AddFirst,
        4 => Act::AddSecond,
        5 => Act::AddAreaFirst,
        6 => Act::AddAreaSecond,
        7 => Act::OfferTime,
        8 => Act::PutFlow,
        9 => Act::Done,
        10 => Act::LoadSums,
        11 => Act::PutHead,
        12 => Act::MarkUnsettled,
        13 => Act::LoadDone,
        14 => Act::Reset,
        15 => Act::SetFixed { word: 3, value: 1 },
        16 => Act::OpenLinks,
        _ => Act::OpenNodes,
    }
}

/// Makes 20,000 drawn events, and tells how many trials they closed, and how many of these are a state.
fn make_drawn(core: &mut Core<EqualLinks>, first: u64, state: &Nets) -> (u64, u64) {
    let mut seed = first;
    let mut closed: u64 = 0;
    let mut same: u64 = 0;
    for _ in 0..20_000u32 {
        seed = next_seed(seed);
        let seat = drawn(seed, 3);
        seed = next_seed(seed);
        let act = act_of(drawn(seed, 18));
        if made(core, seat, act) && act == Act::LoadDone && core.trial().is_some() {
            closed = closed.wrapping_add(1);
            if has_made(core, state) {
                same = same.wrapping_add(1);
            }
        }
    }
    (closed, same)
}

/// Makes 100 lists of drawn events, and tells how many trials they closed, and how many of these are a state.
fn make_lists(alloc: Global, state: &Nets) -> Result<(u64, u64), OutOfMemory> {
    let mut closed: u64 = 0;
    let mut same: u64 = 0;
    for list in 0..100u64 {
        let mut core = start(alloc, 3)?;
        let (more, more_same) = make_drawn(&mut core, list, state);
        closed = closed.wrapping_add(more);
        same = same.wrapping_add(more_same);
    }
    Ok((closed, same))
}

#[test]
fn drawn_events_make_trials_of_one_worker(rt: HostRuntime) -> Result<(), OutOfMemory> {
    let state = state_of_one(rt.alloc(), 3)?;
    let (closed, same) = make_lists(rt.alloc(), &state)?;
    assert_eq!(rt; closed, 547);
    assert_eq!(rt; same, 547);
    Ok(())
}
