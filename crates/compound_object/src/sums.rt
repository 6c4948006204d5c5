//! The checksum of RFC 1071.

ghost use Rattle.std.specs.Prelude.{◌≡◌, ◌+◌};
ghost use Rattle.compound_object.specs.Checksum as specs;
ghost use Rattle.compound_object.specs.Checksum.{ones_sum, word_sum};

/// The one's complement of the one's complement sum of the 16-bit words of these bytes, as in RFC 1071.
/// An odd end is filled with a zero byte.
pub fn checksum(bytes: &[u8]) -> u16
    ensures { result ≡ specs.checksum bytes.now }
{
    u16::MAX - sum_from(0, bytes)
}

/// The one's complement sum of a number and the words of the bytes.
///
/// Four words are added at once, as one number of 64 bits: 2^16 is 1 more than a multiple of 65,535, and so are its
/// powers.
pub(crate) fn sum_from(start: u16, bytes: &[u8]) -> u16
    ensures { result ≡ ones_sum (start + word_sum bytes.now) }
{
    let mut sum = u128::from(start);
    let mut rest = bytes;
    while let [a, b, c, d, e, f, g, h, after @ ..] = rest {
        sum += u128::from(u64::from_be_bytes([*a, *b, *c, *d, *e, *f, *g, *h]));
        rest = after;
    }
    sum_words(ones(sum), rest)
}

/// The one's complement sum of words with this plain sum.
fn ones(plain: u128) -> u16
    ensures { result ≡ ones_sum plain }
{
    if plain == 0 {
        0
    } else {
        ((plain - 1) % 65_535 + 1) as u16
    }
}

/// The same as `sum_from`, word by word.
#[tactic(auto, using(crate::proofs::OnesSums::ones_sum_small))]
fn sum_words(start: u16, bytes: &[u8]) -> u16
    ensures { result ≡ ones_sum (start + word_sum bytes.now) }
{
    let mut sum = start;
    let mut rest = bytes;
    while let [high, low, after @ ..] = rest {
        sum = add(sum, u16::from_be_bytes([*high, *low]));
        rest = after;
    }
    match rest {
        [high] => add(sum, u16::from_be_bytes([*high, 0])),
        _ => sum,
    }
}

/// Adds, and the carry out of 16 bits comes back in at the low end.
fn add(a: u16, b: u16) -> u16
    ensures { result ≡ ones_sum (a + b) }
{
    let wide = u32::from(a) + u32::from(b);
    (wide % 0x1_0000 + wide / 0x1_0000) as u16
}
