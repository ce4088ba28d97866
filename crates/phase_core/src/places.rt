// Where the words of links and nodes stand.
ghost use Rattle.std.specs.Prelude.{◌≡◌, ◌+◌, ◌<◌, ◌≤◌, ◌^◌};
ghost use Rattle.phase_machine.specs.Places.{is_odd, count, written, other};
ghost use Rattle.phase_machine.specs.Places.{link_place as place_of_link, node_place as place_of_node};
ghost use Rattle.phase_machine.specs.Places.{least_place as place_of_least};
ghost use Rattle.phase_machine.specs.Items.{link_input as input_of_link, node_input as input_of_node};
ghost use Rattle.phase_machine.specs.Items.{input_count as count_of_inputs, input_place as place_of_input};
ghost use Rattle.phase_core.specs.Room.{IsItem};

use crate::seat::Seat;
use phase_law::PhaseLaw;

/// Where the count of done items stands.
pub(crate) const DONE: u64 = 0;

/// Where the count of unsettled nodes stands.
pub(crate) const UNSETTLED: u64 = 1;

/// Where it stands whether the trial is the first of its step.
pub(crate) const FIRST: u64 = 2;

/// Whether a phase is one of links.
pub(crate) fn is_of_links(phase: u64) -> bool
    ensures { result ≡ is_odd phase }
{
    phase % 2 == 1
}

/// How many items a phase has.
pub(crate) fn item_count<P: PhaseLaw>(law: &P, phase: u64) -> u64
    ensures { result ≡ count (P.law law.now) phase }
{
    if is_of_links(phase) {
        law.links() as u64
    } else if phase == 0 {
        0
    } else {
        law.nodes() as u64
    }
}

/// The buffer that a phase writes.
pub(crate) fn written_buffer(phase: u64) -> u64
    requires { phase < 2 ^ 63 }
    ensures value { result ≡ written phase }
    ensures few { result ≤ 1 }
{
    (phase + 1) / 2 % 2
}

/// The buffer that a phase reads.
pub(crate) fn read_buffer(phase: u64) -> u64
    requires { phase < 2 ^ 63 }
    ensures value { result ≡ other (written phase) }
    ensures few { result ≤ 1 }
{
    1 - written_buffer(phase)
}

/// The place of word k of a link.
pub(crate) fn link_place(link: u64, k: u64) -> u64
    requires link { link ≤ 20_000 }
    requires k { k ≤ 10 }
    ensures { result ≡ place_of_link link k }
{
    3 + k + 6 * link
}

/// The place of word k of a node.
pub(crate) fn node_place<P: PhaseLaw>(law: &P, node: u64, k: u64) -> u64
    requires node { node ≤ 20_000 }
    requires k { k ≤ 10 }
    ensures { result ≡ place_of_node (P.law law.now) node k }
{
    3 + 6 * law.links() as u64 + k + 10 * node
}

/// The place of the least word.
pub(crate) fn least_place<P: PhaseLaw>(law: &P) -> u64
    ensures { result ≡ place_of_least (P.law law.now) }
{
    3 + 6 * law.links() as u64 + 10 * law.nodes() as u64
}

/// The place of load k of a link's item.
fn link_input<P: PhaseLaw>(law: &P, buffer: u64, link: u32, k: u64) -> u64
    requires buffer { buffer ≤ 1 }
    requires few { link ≤ 20_000 }
    requires link { link < (P.law law.now).links }
    ensures { result ≡ input_of_link (P.law law.now) buffer link k }
{
    let (near, far) = law.ends(link);
    if k < 4 {
        link_place(link as u64, k)
    } else if k == 4 {
        FIRST
    } else if k == 5 {
        node_place(law, near as u64, 5 + buffer)
    } else if k == 6 {
        node_place(law, far as u64, 5 + buffer)
    } else {
        link_place(link as u64, 4 + buffer)
    }
}

/// The place of load k of a node's item.
fn node_input<P: PhaseLaw>(law: &P, buffer: u64, node: u64, k: u64) -> u64
    requires buffer { buffer ≤ 1 }
    requires few { node ≤ 20_000 }
    requires node { node < (P.law law.now).nodes }
    requires k { k ≤ 10 }
    ensures { result ≡ input_of_node (P.law law.now) buffer node k }
{
    if k < 5 {
        node_place(law, node, k)
    } else if k == 5 {
        FIRST
    } else if k == 6 {
        node_place(law, node, 5 + buffer)
    } else {
        node_place(law, node, k)
    }
}

/// How many inputs an item has.
pub(crate) fn input_count(tag: u64) -> u64
    ensures { result ≡ count_of_inputs tag }
{
    if is_of_links(tag) { 8 } else { 7 }
}

/// The place of load k of a seat's item.
pub(crate) fn input_place<P: PhaseLaw>(law: &P, seat: &Seat, k: u64) -> u64
    requires item { IsItem (P.law law.now) seat.now }
    requires few { seat.now.item ≤ 20_000 }
    requires k { k ≤ 10 }
    ensures { result ≡ place_of_input (P.law law.now) seat.now k }
{
    let buffer = read_buffer(seat.tag());
    let item = seat.item();
    if is_of_links(seat.tag()) {
        link_input(law, buffer, item as u32, k)
    } else {
        node_input(law, buffer, item, k)
    }
}
