//! Header extensions (RFC 5651, section 5.2):
//!
//! ```text
//!  0                   1                   2                   3
//!  0 1 2 3 4 5 6 7 8 9 0 1 2 3 4 5 6 7 8 9 0 1 2 3 4 5 6 7 8 9 0 1
//! +---------------+---------------+-------------------------------+
//! |   HET < 128   |      HEL      |           content ..          |
//! +---------------+---------------+-------------------------------+
//! |                           .. content                          |
//! +---------------+-----------------------------------------------+
//! |   HET >= 128  |                    content                    |
//! +---------------+-----------------------------------------------+
//! ```

ghost use Rattle.std.specs.Prelude.{◌≡◌, option_map};
ghost use Rattle.lct_header.specs.Inner.Extensions.{first_of, measured};

use std::marker::Model;

/// The first type of extensions of one word, which have no length.
const ONE_WORD_TYPES: u8 = 128;

/// An extension of a header.
#[derive(Debug, Drop)]
pub struct Extension<'a> {
    /// Its type (HET).
    pub het: u8,
    /// What follows its length (HEL); of an extension of one word the three bytes after the type.
    pub content: &'a [u8],
}

impl<'a> Model for Extension<'a> {
    ghost use Rattle.lct_header.specs.Extension.{Extension};

    ghost Value = { Extension };

    ghost view = { λ a. record { het = a.het; content = a.content.now } };
}

/// The first extension, and what follows it. At the end and at a faulty extension there is none.
pub(crate) fn split_first(bytes: &[u8]) -> Option<(Extension<'_>, &[u8])>
    ensures { option_map (λ first. (first.0, first.1.now)) result ≡ first_of bytes.now }
{
    let [het, bytes @ ..] = bytes else {
        return None;
    };
    let het = *het;
    if het < ONE_WORD_TYPES {
        return split_measured(het, bytes);
    }
    if bytes.len() < 3 {
        return None;
    }
    let (content, others) = bytes.split_at(3);
    Some((Extension { het, content }, others))
}

/// The same of an extension with a length, behind its type.
fn split_measured(het: u8, bytes: &[u8]) -> Option<(Extension<'_>, &[u8])>
    ensures { option_map (λ first. (first.0, first.1.now)) result ≡ measured het bytes.now }
{
    let [words, bytes @ ..] = bytes else {
        return None;
    };
    let length = 4 * usize::from(*words);
    if *words == 0 || bytes.len() + 2 < length {
        return None;
    }
    let (content, others) = bytes.split_at(length - 2);
    Some((Extension { het, content }, others))
}
