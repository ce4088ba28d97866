// The title of an input.
ghost use Rattle.std.specs.Prelude.{◌≡◌, ◌≤◌, ◌++◌, length, not, reverse, take, IfOk, OnOk};
ghost use Rattle.std.specs.List.{position};
ghost use Rattle.inp_lines.specs.Tokens.{is_blank, is_semicolon, before_comment, without_blanks};
ghost use Rattle.inp_reader.specs.Title.{title_lines, title_of, trimmed};

use inp_lines::{Line, SectionName};
use net_types::{List, OutOfMemory, Text};
use std::alloc::Global;

/// The first three lines of all sections TITLE, each without its comment and the blanks at its ends.
pub(crate) fn read_title(alloc: Global, lines: &List<Line>) -> Result<List<Text>, OutOfMemory>
    ensures { IfOk result (λ title. title ≡ title_of lines.now) }
{
    let mut title = List::new(alloc);
    for line in lines.as_slice() {
        add_title(alloc, &mut title, line)?;
    }
    Ok(title)
}

/// Appends the title line that a line gives, if it gives one and there is room.
fn add_title(alloc: Global, title: &mut List<Text>, line: &Line) -> Result<(), OutOfMemory>
    requires { length title.old ≤ 3 }
    ensures title { OnOk result (title.new ≡ take 3 (title.old ++ title_lines line.now)) }
    ensures short { OnOk result (length title.new ≤ 3) }
{
    match line.section {
        SectionName::Title => {
            if title.as_slice().len() < 3 {
                title.push(title_text(alloc, line)?)?;
            }
            Ok(())
        }
        _ => Ok(()),
    }
}

/// What stands before a line's comment, without the blanks at its ends.
fn title_text(alloc: Global, line: &Line) -> Result<Text, OutOfMemory>
    ensures { IfOk result (λ text. text ≡ trimmed (before_comment line.now.bytes)) }
{
    Text::from_slice(alloc, trimmed(before_comment(line.bytes.as_slice())))
}

/// A line up to its first `;`.
fn before_comment(line: &[u8]) -> &[u8]
    ensures { result.now ≡ before_comment line.now }
{
    match find_comment(line) {
        Some(end) => &line[..end],
        None => line,
    }
}

fn find_comment(line: &[u8]) -> Option<usize>
    ensures { result ≡ position is_semicolon line.now }
{
    line.iter().position(|byte| *byte == b';')
}

/// A text without the blanks at its ends.
fn trimmed(text: &[u8]) -> &[u8]
    ensures { result.now ≡ trimmed text.now }
{
    without_end_blanks(without_blanks(text))
}

/// A text from its first byte that is no blank on.
fn without_blanks(text: &[u8]) -> &[u8]
    ensures { result.now ≡ without_blanks text.now }
{
    match find_word(text) {
        Some(start) => &text[start..],
        None => &[],
    }
}

fn find_word(text: &[u8]) -> Option<usize>
    ensures { result ≡ position (λ byte. not (is_blank byte)) text.now }
{
    text.iter().position(|byte| !is_blank(*byte))
}

/// A text up to its last byte that is no blank.
fn without_end_blanks(text: &[u8]) -> &[u8]
    ensures { result.now ≡ reverse (without_blanks (reverse text.now)) }
{
    match find_last_word(text) {
        Some(blanks) => &text[..text.len() - blanks],
        None => &[],
    }
}

/// How many blanks stand behind the last byte that is none.
fn find_last_word(text: &[u8]) -> Option<usize>
    ensures { result ≡ position (λ byte. not (is_blank byte)) (reverse text.now) }
{
    text.iter().rev().position(|byte| !is_blank(*byte))
}

/// Whether a byte is a space or a tab.
fn is_blank(byte: u8) -> bool
    ensures { result ≡ is_blank byte }
{
    byte == b' ' || byte == b'\t'
}
