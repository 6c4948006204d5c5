//! Numbers in ASCII digits.

ghost use Rattle.std.specs.Prelude.{◌≡◌, ◌≤◌, ◌<◌, ◌^◌};
ghost use Rattle.std.specs.Option.{ForSome};
ghost use Rattle.carousel_cid.specs.Number as specs;

/// The number that a text of ASCII digits writes, zeros in front included, where it is below the bound.
///
/// There may be any number of digits: a value stays at the bound once it is there.
#[tactic(auto, unfolding(crate::specs::Number::number_below))]
pub fn number_below(bound: u128, text: &[u8]) -> Option<u128>
    requires { bound ≤ 2 ^ 112 }
    ensures number { result ≡ specs.number_below bound text.now }
    ensures below { ForSome result (λ n. n < bound) }
{
    if text.is_empty() {
        return None;
    }
    let mut value: u128 = 0;
    for byte in text {
        if !byte.is_ascii_digit() {
            return None;
        }
        value = (value * 10 + u128::from(*byte - b'0')).min(bound);
    }
    if value < bound { Some(value) } else { None }
}

/// Says whether a text writes this number.
#[tactic(auto, unfolding(crate::specs::Number::writes_number))]
pub(crate) fn writes_number(text: &[u8], number: usize) -> bool
    ensures { result ≡ specs.writes_number text.now number }
{
    match number_below(number as u128 + 1, text) {
        Some(found) => found == number as u128,
        None => false,
    }
}
