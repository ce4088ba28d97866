ghost use Rattle.std.specs.Prelude.{◌≡◌, true, false};
ghost use Rattle.std.specs.Thread.{IsSync};
ghost use Rattle.node_board.specs.Claims.{HasNew};
ghost use Rattle.node_board.specs.Seen.{IsOf};
ghost use Rattle.node_board.specs.Shows.{work_of};
ghost use Rattle.node_board.specs.TwoLinks.{two_links, two_links_good};

use crate::board::{Board, Seat};
use crate::claims::Claim;
use crate::closes::{Closed, Pending};
use crate::inputs::Sums;
use crate::resets::stopped;
use net_types::OutOfMemory;
use phase_law::{LinkFixed, NodeFixed, NodeNext, PhaseLaw, Share};
use std::thread::{Threads, join};

/// Two links in a row, from node 0 to 1 and from 1 to 2, each with the same share; each node gets the head 500, and the
/// one in the middle alone is settled.
#[derive(Clone, Copy)]
struct TwoLinks;

impl PhaseLaw for TwoLinks {
    ghost law = { λ _. two_links };

    ghost good = { λ _. two_links_good };

    fn nodes(&self) -> u32 {
        3
    }

    fn links(&self) -> u32 {
        2
    }

    fn head_limit(&self) -> i64 {
        1_000_000
    }

    fn ends(&self, link: u32) -> (u32, u32) {
        (link, link + 1)
    }

    fn link_share(
        &self,
        _link: u32,
        _fixed: &LinkFixed,
        _first: bool,
        _near: i64,
        _far: i64,
        _last: i64,
    ) -> Share {
        Share {
            q: 7,
            area1: 1,
            area2: 2,
            time: 1_000,
        }
    }

    fn node_next(
        &self,
        node: u32,
        _fixed: &NodeFixed,
        _first: bool,
        _inflow: i64,
        _outflow: i64,
        _area: i64,
        _last: i64,
    ) -> NodeNext {
        NodeNext {
            head: 500,
            settled: node == 1,
        }
    }
}

/// Makes all acts of a link's item.
fn make_link<P: PhaseLaw>(board: &Board<P>, seat: &mut Seat<P>, link: u32)
    requires from { IsOf board.now seat.old }
    requires item { (work_of seat.old.view).item ≡ link }
    requires new { HasNew true (P.law board.now.law).links (work_of seat.old.view) }
    ensures from { IsOf board.now seat.new }
    ensures free { (work_of seat.new.view).stage ≡ 0 }
{
    let input = board.load_link(seat);
    let share = board.law().link_share(
        link,
        &input.fixed,
        input.first,
        input.near,
        input.far,
        input.last,
    );
    board.add_first(seat, share.q);
    board.add_second(seat, share.q);
    board.add_area_first(seat, share.area1);
    board.add_area_second(seat, share.area2);
    board.offer_time(seat, share.time);
    board.put_flow(seat, share.q);
    board.done(seat);
}

/// Makes all acts of a node's item.
fn make_node<P: PhaseLaw>(board: &Board<P>, seat: &mut Seat<P>, node: u32)
    requires from { IsOf board.now seat.old }
    requires item { (work_of seat.old.view).item ≡ node }
    requires new { HasNew false (P.law board.now.law).nodes (work_of seat.old.view) }
    ensures from { IsOf board.now seat.new }
    ensures free { (work_of seat.new.view).stage ≡ 0 }
{
    let input = board.load_node(seat);
    let next = board.law().node_next(
        node,
        &input.fixed,
        input.first,
        input.sums.inflow,
        input.sums.outflow,
        input.sums.area,
        input.last,
    );
    board.put_head(seat, next.head);
    if next.settled {
        board.done(seat);
    } else {
        board.mark_unsettled(seat);
        board.done(seat);
    }
}

/// Claims an item and makes its acts.
fn make_item<P: PhaseLaw>(board: &Board<P>, seat: &mut Seat<P>)
    requires from { IsOf board.now seat.old }
    requires free { (work_of seat.old.view).stage ≡ 0 }
    ensures from { IsOf board.now seat.new }
    ensures free { (work_of seat.new.view).stage ≡ 0 }
{
    match board.claim(seat) {
        Claim::Link(link) => make_link(board, seat, link),
        Claim::Node(node) => make_node(board, seat, node),
        Claim::NoItem(_) => {}
    }
}

/// Claims two items and makes their acts, each in a thread of its own.
fn make_two_items<R: Threads, P: PhaseLaw + Sync>(
    rt: &R,
    board: &Board<P>,
    one: Seat<P>,
    other: Seat<P>,
)
    requires one { IsOf board.now one }
    requires one_free { (work_of one.view).stage ≡ 0 }
    requires other { IsOf board.now other }
    requires other_free { (work_of other.view).stage ≡ 0 }
{
    join(
        rt,
        move ||
            requires { IsSync P.row × IsOf board.now one × ((work_of one.view).stage ≡ 0) }
        {
            let mut seat = one;
            make_item(board, &mut seat);
        },
        move ||
            requires { IsSync P.row × IsOf board.now other × ((work_of other.view).stage ≡ 0) }
        {
            let mut seat = other;
            make_item(board, &mut seat);
        },
    );
}

#[test]
fn two_threads_share_a_trial(rt: HostRuntime) -> Result<(), OutOfMemory> {
    let (board, mut lead) = Board::open(rt.alloc(), TwoLinks)?;
    let mut seat = board.split(&mut lead);
    let one = board.split(&mut lead);
    let other = board.split(&mut lead);
    let third = board.split(&mut lead);
    let fourth = board.split(&mut lead);
    board.open_links(&mut lead, true);
    make_two_items(&rt, &board, one, other);
    let Ok(Closed) = board.close(&mut lead) else {
        panic!(rt; "both links are done")
    };
    assert_eq!(rt; board.read_flow(&mut lead, 0), 7);
    assert_eq!(rt; board.read_flow(&mut lead, 1), 7);
    board.open_nodes(&mut lead);
    make_two_items(&rt, &board, third, fourth);
    make_item(&board, &mut seat);
    let Ok(Closed) = board.close(&mut lead) else {
        panic!(rt; "all nodes are done")
    };
    assert_eq!(rt; board.read_head(&mut lead, 0), 500);
    assert_eq!(rt; board.least(&mut lead), 1_000);
    assert_eq!(rt; board.unsettled(&mut lead), 2);
    Ok(())
}

#[test]
fn one_seat_makes_a_trial(rt: HostRuntime) -> Result<(), OutOfMemory> {
    let (board, mut lead) = Board::open(rt.alloc(), TwoLinks)?;
    let mut seat = board.split(&mut lead);
    board.open_links(&mut lead, true);
    make_item(&board, &mut seat);
    make_item(&board, &mut seat);
    let Ok(Closed) = board.close(&mut lead) else {
        panic!(rt; "both links are done")
    };
    assert_eq!(rt; board.read_flow(&mut lead, 1), 7);
    board.open_nodes(&mut lead);
    make_item(&board, &mut seat);
    make_item(&board, &mut seat);
    make_item(&board, &mut seat);
    let Ok(Closed) = board.close(&mut lead) else {
        panic!(rt; "all nodes are done")
    };
    let middle = Sums {
        inflow: 7,
        outflow: 7,
        area: 3,
    };
    assert_eq!(rt; board.read_sums(&mut lead, 1), middle);
    assert_eq!(rt; board.read_head(&mut lead, 2), 500);
    assert_eq!(rt; board.least(&mut lead), 1_000);
    assert_eq!(rt; board.unsettled(&mut lead), 2);
    Ok(())
}

#[test]
fn a_phase_waits_for_its_items(rt: HostRuntime) -> Result<(), OutOfMemory> {
    let (board, mut lead) = Board::open(rt.alloc(), TwoLinks)?;
    let mut seat = board.split(&mut lead);
    board.open_links(&mut lead, true);
    make_item(&board, &mut seat);
    assert_eq!(rt; board.close(&mut lead), Err(Pending { done: 1 }));
    Ok(())
}

#[test]
fn nothing_is_claimed_after_a_stop(rt: HostRuntime) -> Result<(), OutOfMemory> {
    let (board, mut lead) = Board::open(rt.alloc(), TwoLinks)?;
    let mut seat = board.split(&mut lead);
    board.stop(&mut lead);
    let Claim::NoItem(word) = board.claim(&mut seat) else {
        panic!(rt; "an item after the stop")
    };
    assert!(rt; stopped(word));
    Ok(())
}
