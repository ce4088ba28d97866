// What a seat makes of its item: the words that it changes.
ghost use Rattle.std.specs.Prelude.{◌≡◌, ◌+◌, ◌≤◌, pos, ◌≤ℤ◌, slice_set};
ghost use Rattle.std.specs.Int.{int_min};
ghost use Rattle.fixed_num.specs.Lists.{number};
ghost use Rattle.phase_machine.specs.Places.{written};
ghost use Rattle.phase_machine.specs.Places.{link_place as place_of_link, node_place as place_of_node};
ghost use Rattle.phase_machine.specs.Places.{least_place as place_of_least};
ghost use Rattle.phase_machine.specs.Items.{leaving, reaching, covering, share_at, next_at};
ghost use Rattle.phase_machine.specs.Steps.{deposited};
ghost use Rattle.phase_core.specs.Room.{ReadyForLink, ReadyForNode};

use crate::asks::{next_of, share_of};
use crate::places::{least_place, link_place, node_place, written_buffer};
use crate::seat::Seat;
use crate::words::{add_area, add_leaving, add_reaching, store, word_at};
use net_types::List;
use phase_law::{PhaseLaw, Share};

/// Adds the flow of a seat's link at its first end.
pub(crate) fn add_first_flow<P: PhaseLaw>(law: &P, words: &mut List<i64>, seat: &Seat)
    requires { ReadyForLink (P.law law.now) words.old seat.now }
    ensures { let l = P.law law.now in
        words.new ≡ deposited l words.old (leaving (l.ends seat.now.item).0 (share_at l seat.now).q) }
{
    let share = share_of(law, seat);
    let (near, _) = law.ends(seat.item() as u32);
    add_leaving(law, words, near, &share);
}

/// Adds the flow of a seat's link at its second end.
pub(crate) fn add_second_flow<P: PhaseLaw>(law: &P, words: &mut List<i64>, seat: &Seat)
    requires { ReadyForLink (P.law law.now) words.old seat.now }
    ensures { let l = P.law law.now in
        words.new ≡ deposited l words.old (reaching (l.ends seat.now.item).1 (share_at l seat.now).q) }
{
    let share = share_of(law, seat);
    let (_, far) = law.ends(seat.item() as u32);
    add_reaching(law, words, far, &share);
}

/// Adds the area of a seat's link at its first end.
pub(crate) fn add_first_area<P: PhaseLaw>(law: &P, words: &mut List<i64>, seat: &Seat)
    requires { ReadyForLink (P.law law.now) words.old seat.now }
    ensures { let l = P.law law.now in
        words.new ≡ deposited l words.old (covering (l.ends seat.now.item).0 (share_at l seat.now).area1) }
{
    let share = share_of(law, seat);
    let (near, _) = law.ends(seat.item() as u32);
    add_area(law, words, near, share.area1);
}

/// Adds the area of a seat's link at its second end.
pub(crate) fn add_second_area<P: PhaseLaw>(law: &P, words: &mut List<i64>, seat: &Seat)
    requires { ReadyForLink (P.law law.now) words.old seat.now }
    ensures { let l = P.law law.now in
        words.new ≡ deposited l words.old (covering (l.ends seat.now.item).1 (share_at l seat.now).area2) }
{
    let share = share_of(law, seat);
    let (_, far) = law.ends(seat.item() as u32);
    add_area(law, words, far, share.area2);
}

/// The lesser of a time (ms) and the time of a share.
fn lesser(least: i64, share: &Share) -> i64
    ensures { result ≡ int_min least share.now.time }
{
    if least <= share.time {
        least
    } else {
        share.time
    }
}

/// Makes the least word the lesser of itself and the time of a seat's link.
#[tactic(auto, using(fixed_num::proofs::Bounds::casts))]
pub(crate) fn offer_least<P: PhaseLaw>(law: &P, words: &mut List<i64>, seat: &Seat)
    requires { ReadyForLink (P.law law.now) words.old seat.now }
    ensures { let l = P.law law.now in let place = place_of_least l in
        words.new ≡ slice_set words.old place (int_min (number words.old place) (share_at l seat.now).time) }
{
    let share = share_of(law, seat);
    let place = least_place(law);
    let least = lesser(word_at(words, place), &share);
    store(words, place, least);
}

/// Stores the flow of a seat's link.
#[tactic(auto, using(fixed_num::proofs::Bounds::casts))]
pub(crate) fn store_flow<P: PhaseLaw>(law: &P, words: &mut List<i64>, seat: &Seat)
    requires { ReadyForLink (P.law law.now) words.old seat.now }
    ensures { words.new ≡ slice_set words.old (place_of_link seat.now.item (4 + written seat.now.tag))
        (share_at (P.law law.now) seat.now).q }
{
    let share = share_of(law, seat);
    let place = link_place(seat.item(), 4 + written_buffer(seat.tag()));
    store(words, place, share.q);
}

/// Stores the next head of a seat's node.
pub(crate) fn store_head<P: PhaseLaw>(law: &P, words: &mut List<i64>, seat: &Seat)
    requires { ReadyForNode (P.law law.now) words.old seat.now }
    ensures { let l = P.law law.now in
        words.new ≡ slice_set words.old (place_of_node l seat.now.item (5 + written seat.now.tag))
        (next_at l seat.now).head }
{
    let next = next_of(law, seat);
    let place = node_place(law, seat.item(), 5 + written_buffer(seat.tag()));
    store(words, place, next.head);
}
