// Whether a word may hold a value.
ghost use Rattle.std.specs.Prelude.{◌≡◌, ◌+◌, ◌*◌, ◌^◌, ◌<◌, ◌≤◌, ◌⊎◌, ◌↔◌, pos, IsTrue};
ghost use Rattle.fixed_num.specs.Ranges.{IsWithin, IsBetween, IsFlow, IsPart, IsStepLength};
ghost use Rattle.phase_law.specs.Laws.{IsLaw};
ghost use Rattle.phase_law.specs.Ranges.{HeadInRange};
ghost use Rattle.phase_machine.specs.Places.{LinkWord, NodeWord, IsRead, IsInRange};
ghost use Rattle.phase_machine.specs.Steps.{CanSet};

use crate::places::{FIRST, least_place, written_buffer};
use phase_law::PhaseLaw;

/// Whether a value is at most so far from 0.
fn is_within(value: i64, most: u64) -> bool
    ensures { IsTrue result ↔ IsWithin most value }
{
    value.unsigned_abs() <= most
}

/// Whether a value lies from 0 to a greatest.
fn is_amount(value: i64, most: i64) -> bool
    ensures { IsTrue result ↔ IsBetween (pos 0) value most }
{
    value >= 0 && value <= most
}

/// Whether a value is the length of a step (ms).
fn is_length(value: i64) -> bool
    ensures { IsTrue result ↔ IsStepLength value }
{
    value >= 0 && value <= 3_600_000 && value.unsigned_abs() % 2 == 0
}

/// Whether word k of a link may hold a value.
fn is_link_word(k: u64, value: i64) -> bool
    ensures { IsTrue result ↔ LinkWord k value }
{
    match k {
        0 => is_within(value, 1_000_000_000_000),
        1 => is_amount(value, 1_000_000_000_000),
        2 => is_amount(value, 1_000_000),
        3 => is_length(value),
        _ => is_within(value, 1_000_000_000_000),
    }
}

/// Whether word k of a node may hold a value.
fn is_node_word<P: PhaseLaw>(law: &P, k: u64, value: i64) -> bool
    requires { IsLaw (P.law law.now) }
    ensures { IsTrue result ↔ NodeWord (P.law law.now) k value }
{
    let limit = law.head_limit().unsigned_abs();
    match k {
        0 => is_within(value, limit),
        1 => is_within(value, 30_000_000_000_000_000),
        2 => is_within(value, 1_000_000_000_000),
        3 => is_within(value, limit),
        4 => is_length(value),
        _ => is_within(value, limit),
    }
}

/// Whether a trial that reads a buffer reads word k of links.
fn reads_link_word(buffer: u64, k: u64) -> bool
    requires { buffer ≤ 1 }
    ensures { IsTrue result ↔ ((k < 4) ⊎ (k ≡ 4 + buffer)) }
{
    k < 4 || k == 4 + buffer
}

/// Whether a trial that reads a buffer reads word k of nodes.
fn reads_node_word(buffer: u64, k: u64) -> bool
    requires { buffer ≤ 1 }
    ensures { IsTrue result ↔ ((k < 5) ⊎ (k ≡ 5 + buffer)) }
{
    k < 5 || k == 5 + buffer
}

/// Whether a trial that reads a buffer reads the word at a place among those of links, and the word may hold a value.
fn can_hold_link<P: PhaseLaw>(law: &P, buffer: u64, place: u64, value: i64) -> bool
    requires buffer { buffer ≤ 1 }
    requires from { 3 ≤ place }
    requires to { place < 3 + 6 * (P.law law.now).links }
    ensures { IsTrue result ↔ (IsRead (P.law law.now) buffer place × IsInRange (P.law law.now) place value) }
{
    let k = (place - 3) % 6;
    reads_link_word(buffer, k) && is_link_word(k, value)
}

/// Whether a trial that reads a buffer reads the word at a place among those of nodes, and the word may hold a value.
fn can_hold_node<P: PhaseLaw>(law: &P, buffer: u64, place: u64, value: i64) -> bool
    requires good { IsLaw (P.law law.now) }
    requires buffer { buffer ≤ 1 }
    requires from { 3 + 6 * (P.law law.now).links ≤ place }
    requires to { place < 3 + 6 * (P.law law.now).links + 10 * (P.law law.now).nodes }
    ensures { IsTrue result ↔ (IsRead (P.law law.now) buffer place × IsInRange (P.law law.now) place value) }
{
    let k = (place - 3 - 6 * law.links() as u64) % 10;
    reads_node_word(buffer, k) && is_node_word(law, k, value)
}

/// Whether a trial that reads a buffer reads the word at a place, and the word may hold a value.
pub(crate) fn can_hold<P: PhaseLaw>(law: &P, buffer: u64, place: u64, value: i64) -> bool
    requires good { IsLaw (P.law law.now) }
    requires buffer { buffer ≤ 1 }
    ensures { IsTrue result ↔ (IsRead (P.law law.now) buffer place × IsInRange (P.law law.now) place value) }
{
    let nodes_from = 3 + 6 * law.links() as u64;
    if place == FIRST {
        is_amount(value, 1)
    } else if place < FIRST || place >= least_place(law) {
        false
    } else if place < nodes_from {
        can_hold_link(law, buffer, place, value)
    } else {
        can_hold_node(law, buffer, place, value)
    }
}

/// Whether a value may be stored in a word that the next trial reads.
pub(crate) fn can_set<P: PhaseLaw>(law: &P, phase: u64, word: u32, value: i64) -> bool
    requires good { IsLaw (P.law law.now) }
    requires phase { phase < 2 ^ 63 }
    ensures { IsTrue result ↔ CanSet (P.law law.now) phase word value }
{
    word > 0 && can_hold(law, written_buffer(phase), (word - 1) as u64, value)
}
