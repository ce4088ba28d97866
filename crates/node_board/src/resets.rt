// Which words are reset between phases, and the claim words of phases.
ghost use Rattle.std.specs.Prelude.{◌≡◌, ◌+◌, ◌≤◌, pos};
ghost use Rattle.phase_machine.specs.Steps.{reset_count as count_of_resets, reset_place, reset_value};
ghost use Rattle.node_board.specs.Coding.{claim_word, stop_word};
ghost use Rattle.std.specs.Prelude.{IsTrue, ◌↔◌};

use crate::places::{least_word, node_word};
use phase_law::PhaseLaw;

/// How many words are reset after a phase.
pub(crate) fn reset_count<P: PhaseLaw>(law: &P, phase: u32) -> u64
    ensures { result ≡ count_of_resets (P.law law.now) phase }
{
    if phase % 2 == 1 {
        1
    } else {
        3 + 3 * law.nodes() as u64
    }
}

/// The word of a reset.
pub(crate) fn reset_word<P: PhaseLaw>(law: &P, reset: u64) -> usize
    ensures { result ≡ reset_place (P.law law.now) reset + 1 }
{
    if reset < 2 {
        reset as usize + 1
    } else if reset < 2 + 3 * law.nodes() as u64 {
        let node = ((reset - 2) / 3) as u32;
        node_word(law, node, 7 + ((reset - 2) % 3) as u32)
    } else {
        least_word(law)
    }
}

/// What a reset stores.
pub(crate) fn reset_code<P: PhaseLaw>(law: &P, reset: u64) -> u64
    ensures { pos result ≡ reset_value (P.law law.now) reset }
{
    if reset < 2 + 3 * law.nodes() as u64 {
        0
    } else {
        3_600_000
    }
}

/// The claim word as the next phase is opened.
pub(crate) fn next_claim(phase: u32) -> u64
    requires { phase ≤ 2_000_000_003 }
    ensures { result ≡ claim_word (phase + 1) 0 }
{
    (phase as u64 + 1) * 4_294_967_296
}

/// Whether a claim word is that of a stop, which a worker finds on a board that was stopped.
pub fn stopped(word: u64) -> bool
    ensures { IsTrue result ↔ (word ≡ stop_word) }
{
    word == u64::MAX
}
