//! IPv4 addresses in words.

ghost use Rattle.std.specs.Prelude.{◌≡◌, option_map};
ghost use Rattle.fcast_words.specs.Addresses as addresses;
ghost use Rattle.fcast_words.specs.Inner.Dots as dots;

use crate::number::number_in;

/// The IPv4 address that four numbers of 1 to 3 digits, joined by dots, spell.
pub(crate) fn address_of(text: &str) -> Option<[u8; 4]>
    ensures { result ≡ addresses.address_of text.now }
{
    four_bytes(text)
}

fn four_bytes(text: &str) -> Option<[u8; 4]>
    ensures { result ≡ dots.four_bytes text.now }
{
    let (a, rest) = byte_and_rest(text)?;
    let (b, rest) = byte_and_rest(rest)?;
    let (c, rest) = byte_and_rest(rest)?;
    let d = byte_of(rest)?;
    Some([a, b, c, d])
}

/// The number before the first dot, and what follows the dot.
fn byte_and_rest(text: &str) -> Option<(u8, &str)>
    ensures { option_map (λ x. (x.0, x.1.now)) result ≡ dots.byte_and_rest text.now }
{
    match text.split_once('.') {
        None => None,
        Some((before, after)) => match byte_of(before) {
            None => None,
            Some(byte) => Some((byte, after)),
        },
    }
}

fn byte_of(text: &str) -> Option<u8>
    ensures { result ≡ addresses.byte_of text.now }
{
    if text.len() > 3 {
        return None;
    }
    match number_in(text, 0, 255) {
        None => None,
        Some(number) => Some(number as u8),
    }
}
