// The checks of single values: names, numbers and the number of workers.
ghost use Rattle.std.specs.Prelude.{◌≡◌};
ghost use Rattle.std.specs.Char.{is_ascii_digit};
ghost use Rattle.std.specs.List.{list_all};
ghost use Rattle.std.specs.Option.{option_map};
ghost use Rattle.command_words.specs.CommandWords.{is_name, is_name_if_given, number_in, workers_of};

// The most workers that a command may ask for.
const MOST_WORKERS: u32 = 16;

// Whether a text can name a file: it isn't empty, and isn't `-` alone.
pub(crate) fn names_file(text: &str) -> bool
    ensures { result ≡ is_name text.now }
{
    match text.as_bytes() {
        [] | [b'-'] => false,
        _ => true,
    }
}

// The same of an option's value, where the option is given.
pub(crate) fn may_name_file(text: Option<&str>) -> bool
    ensures { result ≡ is_name_if_given (option_map (λ name. name.now) text.entry) }
{
    match text {
        Some(text) => names_file(text),
        None => true,
    }
}

// The number that a text is, where it has one to `most` digits and a value from `low` to `high`.
pub(crate) fn number(text: &str, most: usize, low: u32, high: u32) -> Option<u32>
    ensures { result ≡ number_in most low high text.now }
{
    let digits = text.as_bytes();
    if digits.is_empty() || digits.len() > most {
        return None;
    }
    if !are_digits(digits) {
        return None;
    }
    match text.parse::<u32>() {
        Ok(value) if low <= value && value <= high => Some(value),
        Ok(_) => None,
        Err(_) => None,
    }
}

// Whether each byte is a digit.
fn are_digits(text: &[u8]) -> bool
    ensures { result ≡ list_all is_ascii_digit text.now }
{
    text.iter().all(|digit| digit.is_ascii_digit())
}

// The number of workers that an option's value asks for: none where it isn't given, and None where it is no number
// of workers.
pub(crate) fn workers(text: Option<&str>) -> Option<Option<u32>>
    ensures { result ≡ workers_of (option_map (λ digits. digits.now) text.entry) }
{
    match text {
        Some(text) => Some(Some(number(text, 2, 1, MOST_WORKERS)?)),
        None => Some(None),
    }
}
