// Where the words of the board stand, and what they hold.
ghost use Rattle.std.specs.Prelude.{◌≡◌, ℕ, ◌+◌, ◌<◌, ◌≤◌, ◌^◌, pos, ◌+ℤ◌, ◌-ℤ◌};
ghost use Rattle.std.specs.Int.RustNames.{unsigned_abs};
ghost use Rattle.phase_machine.specs.Items.{leaving, reaching};
ghost use Rattle.phase_machine.specs.Items.{link_input as input_of_link, node_input as input_of_node};
ghost use Rattle.phase_machine.specs.Places.{count, written, other, link_place, node_place, least_place};
ghost use Rattle.node_board.specs.Coding.{phase_in, index_in};

use phase_law::PhaseLaw;

/// The claim word, and the counts of done items and of unsettled nodes.
pub(crate) const CLAIM: usize = 0;

pub(crate) const DONE: usize = 1;

pub(crate) const UNSETTLED: usize = 2;

/// The word that is 1 in the first trial of a step.
pub(crate) const FIRST: usize = 3;

/// What stands in a word for 0 where numbers may be below 0.
const HALF: u64 = 9_223_372_036_854_775_808;

/// The sums of a node.
const INFLOW: u32 = 0;

const OUTFLOW: u32 = 1;

pub(crate) const AREA: u32 = 2;

/// The phase of a claim word.
pub(crate) fn phase_of(word: u64) -> u32
    ensures { result ≡ phase_in word }
{
    (word / 4_294_967_296) as u32
}

/// The index of a claim word.
pub(crate) fn index_of(word: u64) -> u32
    ensures { result ≡ index_in word }
{
    (word % 4_294_967_296) as u32
}

/// How many items a phase has.
pub(crate) fn item_count<P: PhaseLaw>(law: &P, phase: u32) -> u64
    ensures { result ≡ count (P.law law.now) phase }
{
    if phase % 2 == 1 {
        law.links() as u64
    } else if phase == 0 {
        0
    } else {
        law.nodes() as u64
    }
}

/// The buffer that a phase writes.
pub(crate) fn written_buffer(phase: u32) -> u32
    ensures value { result ≡ written phase }
    ensures few { result ≤ 1 }
{
    ((phase as u64 + 1) / 2 % 2) as u32
}

/// Word k of a link.
pub(crate) fn link_word(link: u32, k: u32) -> usize
    ensures { result ≡ link_place link k + 1 }
{
    4 + k as usize + 6 * link as usize
}

/// Word k of a node.
pub(crate) fn node_word<P: PhaseLaw>(law: &P, node: u32, k: u32) -> usize
    ensures { result ≡ node_place (P.law law.now) node k + 1 }
{
    4 + 6 * law.links() as usize + k as usize + 10 * node as usize
}

/// The least word.
pub(crate) fn least_word<P: PhaseLaw>(law: &P) -> usize
    ensures { result ≡ least_place (P.law law.now) + 1 }
{
    4 + 6 * law.links() as usize + 10 * law.nodes() as usize
}

/// The word of a number that may be below 0.
pub(crate) fn signed_word(value: i64) -> u64
    ensures { result ≡ unsigned_abs (value +ℤ pos (2 ^ 63)) }
{
    if value >= 0 {
        value as u64 + HALF
    } else {
        HALF - value.unsigned_abs()
    }
}

/// The number of a word that may be below 0.
pub(crate) fn signed_number(word: u64) -> i64
    ensures { result ≡ pos word -ℤ pos (2 ^ 63) }
{
    if word >= HALF {
        (word - HALF) as i64
    } else {
        word as i64 - i64::MAX - 1
    }
}

/// The number of a word that is never below 0.
pub(crate) fn amount(word: u64) -> i64
    requires { word ≤ 1_000_000_000_000_000_000 }
    ensures { result ≡ pos word }
{
    word as i64
}

/// The sum and the amount of a flow that leaves a node.
pub(crate) fn leaving_part(q: i64) -> (u32, u64)
    ensures deposit { (node : ℕ) → leaving node q ≡ record { node = node; sum = result.0; amount = result.1 } }
    ensures few { result.0 < 3 }
{
    if q >= 0 {
        (OUTFLOW, q.unsigned_abs())
    } else {
        (INFLOW, q.unsigned_abs())
    }
}

/// The sum and the amount of a flow that reaches a node.
pub(crate) fn reaching_part(q: i64) -> (u32, u64)
    ensures deposit { (node : ℕ) → reaching node q ≡ record { node = node; sum = result.0; amount = result.1 } }
    ensures few { result.0 < 3 }
{
    if q >= 0 {
        (INFLOW, q.unsigned_abs())
    } else {
        (OUTFLOW, q.unsigned_abs())
    }
}

/// The buffer that a phase reads.
fn read_buffer(phase: u32) -> u32
    ensures value { result ≡ other (written phase) }
    ensures few { result ≤ 1 }
{
    1 - written_buffer(phase)
}

/// The word that load k of a link's item reads in a phase.
pub(crate) fn link_input<P: PhaseLaw>(law: &P, phase: u32, link: u32, k: u32) -> usize
    requires link { link < (P.law law.now).links }
    requires k { k < 8 }
    ensures { result ≡ input_of_link (P.law law.now) (other (written phase)) link k + 1 }
{
    let buffer = read_buffer(phase);
    let (near, far) = law.ends(link);
    if k < 4 {
        link_word(link, k)
    } else if k == 4 {
        FIRST
    } else if k == 5 {
        node_word(law, near, 5 + buffer)
    } else if k == 6 {
        node_word(law, far, 5 + buffer)
    } else {
        link_word(link, 4 + buffer)
    }
}

/// The word that load k of a node's item reads in a phase.
pub(crate) fn node_input<P: PhaseLaw>(law: &P, phase: u32, node: u32, k: u32) -> usize
    requires k { k < 10 }
    ensures { result ≡ input_of_node (P.law law.now) (other (written phase)) node k + 1 }
{
    if k < 5 {
        node_word(law, node, k)
    } else if k == 5 {
        FIRST
    } else if k == 6 {
        node_word(law, node, 5 + read_buffer(phase))
    } else {
        node_word(law, node, k)
    }
}
