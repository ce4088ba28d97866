// The tokens of a line.
ghost use Rattle.std.specs.Prelude.{◌≡◌, ◌+◌, ◌<◌, ◌≤◌, IfOk, IfSome, List, MatchOption, [], ◌∷◌, drop, length, take};
ghost use Rattle.inp_lines.specs.Tokens.{TokensAreUnique, before_comment, tokens_of};

use crate::scan::{before, behind, place_of, place_of_blank, without_blanks};
use net_types::{List, OutOfMemory, Text};
use std::alloc::Global;

// What stands before the first `;` of a line.
pub fn before_comment(line: &[u8]) -> &[u8]
    ensures { result.now ≡ before_comment line.now }
{
    before(b';', line)
}

// What stands before and behind a place.
fn cut_at(place: usize, text: &[u8]) -> (&[u8], &[u8])
    requires { place ≤ length text.now }
    ensures before { result.0.now ≡ take place text.now }
    ensures behind { result.1.now ≡ drop (place + 1) text.now }
{
    (&text[..place], behind(place, text))
}

// The first token, and what stands behind it.
fn first_token(text: &[u8]) -> Option<(&[u8], &[u8])>
    ensures first { MatchOption result (tokens_of text.now ≡ [])
        (λ pair. tokens_of text.now ≡ pair.0.now ∷ tokens_of pair.1.now) }
    ensures shorter { IfSome result (λ pair. length pair.1.now < length text.now) }
{
    match without_blanks(text) {
        [] => None,
        [b'"', quoted @ ..] => Some(cut_at(place_of(b'"', quoted), quoted)),
        plain => Some(cut_at(place_of_blank(plain), plain)),
    }
}

// All tokens.
pub fn tokens_of(alloc: Global, text: &[u8]) -> Result<List<Text>, OutOfMemory>
    ensures { IfOk result (λ tokens. tokens ≡ tokens_of text.now) }
{
    let mut tokens = List::new(alloc);
    let mut rest = text;
    while let Some((token, behind)) = first_token(rest) {
        tokens.push(Text::from_slice(alloc, token)?)?;
        rest = behind;
    }
    Ok(tokens)
}

/// The tokens of a text are the one list that its grammar allows: blanks and tokens in turn, where a token that
/// begins with a quote runs to the next quote, and any other to the next blank.
pub fn tokens_are_unique()
    ensures { TokensAreUnique }
{}
