// The lines of an input.
ghost use Rattle.std.specs.Prelude.{◌≡◌, ◌<◌, ◌≤◌, ◌++◌, [], ◌∷◌, IfOk, IfSome, List, MatchOption, OnOk, length};
ghost use Rattle.std.specs.Option.{unwrap_or};
ghost use Rattle.std.specs.Str.Lines.{lines, strip_carriage_return};
ghost use Rattle.inp_lines.specs.Lines.{is_kept, line_list, lines_of};
ghost use Rattle.inp_lines.specs.Order.{Rise};
ghost use Rattle.inp_lines.specs.Sections.{named_section};
ghost use Rattle.inp_lines.specs.Tokens.{before_comment, tokens_of};

use crate::line::{Line, SectionName};
use crate::scan::place_of;
use crate::section::section_of;
use crate::tokens::{before_comment, tokens_of};
use net_types::{List, OutOfMemory, Text};
use std::alloc::Global;

/// The lines of an input that have a token and aren't section lines, and the section lines of unknown sections.
/// Each has its number in the file, from 1, the section that the nearest section line above it names (that of an
/// unknown section line is `Unknown`), its tokens, and its bytes without the line end: an LF, and one CR before
/// it. The last line may lack its LF; a CR anywhere else, an unclosed quote and every byte from 0 to 255 are
/// accepted (this project's profile).
pub fn split_lines(alloc: Global, input: &[u8]) -> Result<List<Line>, OutOfMemory>
    requires short { length input.now ≤ 33_554_432 }
    ensures lines { IfOk result (λ lines. lines ≡ lines_of input.now) }
    ensures rise { IfOk result (λ lines. Rise 0 lines) }
    ensures count { IfOk result (λ lines. length lines ≤ length input.now) }
{
    let mut lines = List::new(alloc);
    let mut section = SectionName::Before;
    let mut number = 0;
    let mut rest = input;
    while let Some((text, below)) = first_line(rest) {
        number += 1;
        section = section_of(text).unwrap_or(section);
        add_line(alloc, &mut lines, number, section, text)?;
        rest = below;
    }
    Ok(lines)
}

// The first line without its line end, and what stands below it.
fn first_line(input: &[u8]) -> Option<(&[u8], &[u8])>
    ensures first { MatchOption result (lines input.now ≡ [])
        (λ pair. lines input.now ≡ pair.0.now ∷ lines pair.1.now) }
    ensures shorter { IfSome result (λ pair. length pair.1.now < length input.now) }
{
    let end = place_of(b'\n', input);
    if end < input.len() {
        Some((without_return(&input[..end]), &input[end + 1..]))
    } else if input.is_empty() {
        None
    } else {
        Some((input, &[]))
    }
}

// The line without the one CR at its end, if it has one.
fn without_return(line: &[u8]) -> &[u8]
    ensures { result.now ≡ strip_carriage_return line.now }
{
    match line {
        [front @ .., b'\r'] => front,
        _ => line,
    }
}

// Appends the line if it is one of those that are kept.
fn add_line(
    alloc: Global,
    lines: &mut List<Line>,
    number: u32,
    section: SectionName,
    text: &[u8],
) -> Result<(), OutOfMemory>
    ensures { OnOk result (lines.new ≡ lines.old ++ line_list number section text.now) }
{
    let tokens = tokens_of(alloc, before_comment(text))?;
    if is_kept(text, &tokens) {
        let bytes = Text::from_slice(alloc, text)?;
        lines.push(Line {
            number,
            section,
            tokens,
            bytes,
        })?;
    }
    Ok(())
}

// Whether a line is kept, which has these tokens.
fn is_kept(text: &[u8], tokens: &List<Text>) -> bool
    ensures { tokens.now ≡ tokens_of (before_comment text.now) → result ≡ is_kept text.now }
{
    match section_of(text) {
        Some(section) => section == SectionName::Unknown,
        None => !tokens.as_slice().is_empty(),
    }
}
