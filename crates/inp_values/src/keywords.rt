ghost use Rattle.std.specs.Prelude.{◌≡◌};
ghost use Rattle.inp_values.specs.Switch.{switch_of};
ghost use Rattle.inp_values.specs.Words.{same_word};

/// The text is the keyword, where the case of ASCII letters doesn't count (this project's profile).
pub fn is_word(text: &[u8], word: &[u8]) -> bool
    ensures { result ≡ same_word text.now word.now }
{
    text.eq_ignore_ascii_case(word)
}

/// True for YES and false for NO in any case, and none for every other text (User's Manual, section [OPTIONS]).
pub fn yes_no(text: &[u8]) -> Option<bool>
    ensures { result ≡ switch_of text.now }
{
    if is_word(text, b"YES") {
        return Some(true);
    }
    if is_word(text, b"NO") {
        return Some(false);
    }
    None
}
