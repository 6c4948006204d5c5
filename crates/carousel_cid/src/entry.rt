//! An entry of a descriptor's list: an identifier or a range of them.

ghost use Rattle.std.specs.Prelude.{◌≡◌, ◌≤◌, ◌<◌, ◌^◌, IfSome};
ghost use Rattle.std.specs.Option.{ForSome};
ghost use Rattle.carousel_cid.specs.Listing as specs;

use crate::number::number_below;
use meta_text::place_of;

/// The bound of the identifiers that can be listed. The widest has 112 bits, as in a header.
pub(crate) const IDENTIFIER_BOUND: u128 = 1 << 112;

/// An entry of a descriptor's list: the identifiers from the first to the last.
#[derive(Clone, Copy)]
pub(crate) struct Entry {
    pub(crate) first: u128,
    pub(crate) last: u128,
}

/// The entry that a text spells: a number, or two with a dash between them, the second not below the
/// first.
#[tactic(auto, unfolding(crate::specs::Listing::entry_in))]
pub(crate) fn read_entry(text: &[u8]) -> Option<Entry>
    ensures entry { result ≡ specs.entry_in text.now }
    ensures fits { ForSome result (λ entry. entry.last < 2 ^ 112) }
    ensures order { IfSome result (λ entry. entry.first ≤ entry.last) }
{
    match place_of(text, b'-') {
        None => one(identifier(text)),
        Some(dash) => range(identifier(&text[..dash]), identifier(&text[dash + 1..])),
    }
}

fn one(toi: Option<u128>) -> Option<Entry>
    requires { ForSome toi (λ n. n < 2 ^ 112) }
    ensures entry { result ≡ specs.one_entry toi }
    ensures fits { ForSome result (λ entry. entry.last < 2 ^ 112) }
    ensures order { IfSome result (λ entry. entry.first ≤ entry.last) }
{
    let toi = toi?;
    Some(Entry {
        first: toi,
        last: toi,
    })
}

fn range(first: Option<u128>, last: Option<u128>) -> Option<Entry>
    requires { ForSome last (λ n. n < 2 ^ 112) }
    ensures entry { result ≡ specs.range_entry first last }
    ensures fits { ForSome result (λ entry. entry.last < 2 ^ 112) }
    ensures order { IfSome result (λ entry. entry.first ≤ entry.last) }
{
    let (first, last) = (first?, last?);
    if first <= last {
        Some(Entry { first, last })
    } else {
        None
    }
}

fn identifier(text: &[u8]) -> Option<u128>
    ensures number { result ≡ specs.identifier_in text.now }
    ensures fits { ForSome result (λ n. n < 2 ^ 112) }
{
    number_below(IDENTIFIER_BOUND, text)
}
