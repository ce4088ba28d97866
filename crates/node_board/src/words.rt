// The words of a board as it is opened.
ghost use Rattle.std.specs.Prelude.{◌≡◌, pos, IfOk};
ghost use Rattle.phase_machine.specs.Places.{word_count};
ghost use Rattle.node_board.specs.Coding.{is_plain as plain_at, coded};
ghost use Rattle.node_board.specs.Opening.{first_number, first_words as words_at_first};

use net_types::OutOfMemory;
use phase_law::PhaseLaw;
use std::alloc::Global;

/// How many words stand behind the claim word.
fn words_behind<P: PhaseLaw>(law: &P) -> usize
    ensures { result ≡ word_count (P.law law.now) }
{
    4 + 6 * law.links() as usize + 10 * law.nodes() as usize
}

/// Whether the number at a place is never below 0.
fn is_plain<P: PhaseLaw>(law: &P, place: usize) -> bool
    ensures { result ≡ plain_at (P.law law.now) place }
{
    let links_end = 3 + 6 * law.links() as usize;
    let nodes_end = links_end + 10 * law.nodes() as usize;
    if place < 3 {
        true
    } else if place < links_end {
        false
    } else if place < nodes_end {
        6 < (place - links_end) % 10
    } else {
        true
    }
}

/// The first number at a place.
fn first_value<P: PhaseLaw>(law: &P, place: usize) -> u64
    ensures { pos result ≡ first_number (P.law law.now) place }
{
    let least = 3 + 6 * law.links() as usize + 10 * law.nodes() as usize;
    if place == 2 {
        1
    } else if place == least {
        3_600_000
    } else {
        0
    }
}

/// The first word at a place.
fn first_word<P: PhaseLaw>(law: &P, place: usize) -> u64
    ensures { result ≡ coded (P.law law.now) place (first_number (P.law law.now) place) }
{
    let value = first_value(law, place);
    if is_plain(law, place) {
        value
    } else {
        value + 9_223_372_036_854_775_808
    }
}

/// All words as a board is opened.
pub(crate) fn first_words<P: PhaseLaw>(alloc: Global, law: &P) -> Result<Vec<u64>, OutOfMemory>
    ensures { IfOk result (λ words. words.items ≡ words_at_first (P.law law.now)) }
{
    let mut words = Vec::new(alloc);
    words.push(0)?;
    for place in 0..words_behind(law) {
        words.push(first_word(law, place))?;
    }
    Ok(words)
}
