// What a seat asks of the law.
ghost use Rattle.std.specs.Prelude.{◌≡◌, ◌<◌, pos, ◌≤ℤ◌};
ghost use Rattle.phase_law.specs.Laws.{IsLaw};
ghost use Rattle.phase_law.specs.Ranges.{ShareInRange};
ghost use Rattle.phase_machine.specs.Places.{is_first};
ghost use Rattle.phase_machine.specs.Items.{share_at, next_at};
ghost use Rattle.phase_machine.specs.Asks.{AsksLink, AsksNode};

use crate::seat::Seat;
use phase_law::{LinkFixed, NodeFixed, NodeNext, PhaseLaw, Share};

/// Whether a word tells that the trial is the first of its step.
fn tells_first(word: i64) -> bool
    ensures { result ≡ is_first word }
{
    word == 1
}

/// The share of a seat's link, from what the seat loaded.
#[tactic(auto, unfolding(phase_machine::specs::Items::share_at))]
fn ask_share<P: PhaseLaw>(law: &P, seat: &Seat) -> Share
    requires good { IsLaw (P.law law.now) }
    requires asks { AsksLink (P.law law.now) seat.now }
    ensures { result ≡ share_at (P.law law.now) seat.now }
{
    let loaded = seat.loaded();
    let fixed = LinkFixed {
        q_old: loaded[0],
        a_old: loaded[1],
        setting: loaded[2],
        dt: loaded[3],
    };
    let first = tells_first(loaded[4]);
    law.link_share(
        seat.item() as u32,
        &fixed,
        first,
        loaded[5],
        loaded[6],
        loaded[7],
    )
}

/// The share of a seat's link, from what the seat loaded, and that it is in range.
pub(crate) fn share_of<P: PhaseLaw>(law: &P, seat: &Seat) -> Share
    requires good { IsLaw (P.law law.now) }
    requires asks { AsksLink (P.law law.now) seat.now }
    ensures value { result ≡ share_at (P.law law.now) seat.now }
    ensures range { ShareInRange result }
{
    ask_share(law, seat)
}

/// The next head of a seat's node, from what the seat loaded.
#[tactic(auto, unfolding(phase_machine::specs::Items::next_at))]
pub(crate) fn next_of<P: PhaseLaw>(law: &P, seat: &Seat) -> NodeNext
    requires good { IsLaw (P.law law.now) }
    requires asks { AsksNode (P.law law.now) seat.now }
    ensures { result ≡ next_at (P.law law.now) seat.now }
{
    let loaded = seat.loaded();
    let fixed = NodeFixed {
        h_old: loaded[0],
        net_old: loaded[1],
        lateral: loaded[2],
        stage: loaded[3],
        dt: loaded[4],
    };
    let first = tells_first(loaded[5]);
    law.node_next(
        seat.item() as u32,
        &fixed,
        first,
        loaded[7],
        loaded[8],
        loaded[9],
        loaded[6],
    )
}
