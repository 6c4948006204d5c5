//! Numbers of decimal digits, in a range.

ghost use Rattle.std.specs.Prelude.{◌≡◌, ◌≤◌, IfSome, option_map};
ghost use Rattle.std.specs.Char.{is_ascii_digit};
ghost use Rattle.std.specs.List.{list_all};
ghost use Rattle.fcast_words.specs.Numbers as numbers;
ghost use Rattle.fcast_words.specs.Numbers.{number_in};

/// The number that a text of 1 to 20 ASCII digits spells, where it is in the range, the ends
/// included.
pub(crate) fn number_in(text: &str, least: u64, greatest: u64) -> Option<u64>
    ensures value { result ≡ number_in least greatest text.now }
    ensures greatest { IfSome result (λ n. n ≤ greatest) }
{
    if !is_numeral(text.as_bytes()) {
        return None;
    }
    match text.parse::<u64>() {
        Ok(number) => {
            if least <= number && number <= greatest {
                Some(number)
            } else {
                None
            }
        }
        Err(_) => None,
    }
}

/// As `number_in`, with a value where there is no text.
pub(crate) fn number_or(
    text: Option<&str>,
    least: u64,
    greatest: u64,
    default: Option<u64>,
) -> Option<u64>
    ensures { result
        ≡ numbers.number_or least greatest default (option_map (λ s. s.now) text.entry) }
{
    match text {
        Some(text) => number_in(text, least, greatest),
        None => default,
    }
}

fn is_numeral(text: &[u8]) -> bool
    ensures { result ≡ numbers.is_numeral text.now }
{
    !text.is_empty() && text.len() <= 20 && are_digits(text)
}

fn are_digits(text: &[u8]) -> bool
    ensures { result ≡ list_all is_ascii_digit text.now }
{
    text.iter().all(|b| b.is_ascii_digit())
}
