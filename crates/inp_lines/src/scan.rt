// Where bytes stand in a text, and what stands before and behind them.
ghost use Rattle.std.specs.Prelude.{◌≡◌, ◌==◌, ◌+◌, ◌≤◌, ℕ, drop, length, not};
ghost use Rattle.std.specs.List.{before_first, position, position_or_len};
ghost use Rattle.inp_lines.specs.Tokens.{is_blank, without_blanks};

// The blanks are the space and the tab.
fn is_blank(byte: u8) -> bool
    ensures { result ≡ is_blank byte }
{
    byte == b' ' || byte == b'\t'
}

fn find_byte(byte: u8, text: &[u8]) -> Option<usize>
    ensures { result ≡ position (λ other. other == byte) text.now }
{
    text.iter().position(|other| *other == byte)
}

fn find_blank(text: &[u8]) -> Option<usize>
    ensures { result ≡ position is_blank text.now }
{
    text.iter().position(|byte| is_blank(*byte))
}

fn find_word(text: &[u8]) -> Option<usize>
    ensures { result ≡ position (λ byte. not (is_blank byte)) text.now }
{
    text.iter().position(|byte| !is_blank(*byte))
}

// The place of the first such byte, or the length where there is none.
pub fn place_of(byte: u8, text: &[u8]) -> usize
    ensures place { result ≡ position_or_len (λ other. other == byte) text.now }
    ensures within { result ≤ length text.now }
{
    find_byte(byte, text).unwrap_or(text.len())
}

// The place of the first blank, or the length where there is none.
pub fn place_of_blank(text: &[u8]) -> usize
    ensures place { result ≡ position_or_len is_blank text.now }
    ensures within { result ≤ length text.now }
{
    find_blank(text).unwrap_or(text.len())
}

// The text from its first byte that is no blank on.
pub fn without_blanks(text: &[u8]) -> &[u8]
    ensures { result.now ≡ without_blanks text.now }
{
    match find_word(text) {
        Some(start) => &text[start..],
        None => &[],
    }
}

// What stands before the first such byte.
pub fn before(byte: u8, text: &[u8]) -> &[u8]
    ensures { result.now ≡ before_first (λ other. other == byte) text.now }
{
    &text[..place_of(byte, text)]
}

// What stands behind a place.
pub fn behind(place: usize, text: &[u8]) -> &[u8]
    ensures { result.now ≡ drop (place + 1) text.now }
{
    if place < text.len() {
        &text[place + 1..]
    } else {
        &[]
    }
}
