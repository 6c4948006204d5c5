//! The first word of a header (RFC 5651, section 5.1):
//!
//! ```text
//!  0                   1                   2                   3
//!  0 1 2 3 4 5 6 7 8 9 0 1 2 3 4 5 6 7 8 9 0 1 2 3 4 5 6 7 8 9 0 1
//! +-------+---+---+-+---+-+---+-+-+---------------+---------------+
//! |   V   | C |PSI|S| O |H|Res|A|B|    HDR_LEN    |       CP      |
//! +-------+---+---+-+---+-+---+-+-+---------------+---------------+
//! ```

ghost use Rattle.std.specs.Prelude.{◌≡◌, ◌≤◌, ◌*◌, length};
ghost use Rattle.lct_header.specs.Word.{word_bytes, tsi_length, toi_length, cci_length};
ghost use Rattle.lct_header.specs.Inner.Word.{word_in};

use std::marker::Model;

/// What the first word says, bit field by bit field.
#[derive(Drop)]
pub(crate) struct FirstWord {
    pub(crate) c: u8,
    pub(crate) s: u8,
    pub(crate) o: u8,
    pub(crate) h: u8,
    pub(crate) close_session: bool,
    pub(crate) close_object: bool,
    /// The header's length in words of four bytes (HDR_LEN).
    pub(crate) words: u8,
    pub(crate) codepoint: u8,
}

impl Model for FirstWord {
    ghost use Rattle.lct_header.specs.Word.{FirstWord as WordOf, FitsWord};

    ghost Value = { WordOf };

    ghost view = { λ a. record { c = a.c; s = a.s; o = a.o; h = a.h; close_session = a.close_session; close_object = a.close_object; words = a.words; codepoint = a.codepoint } };

    ghost invariant = { λ a. FitsWord (
        record { c = a.c; s = a.s; o = a.o; h = a.h; close_session = a.close_session; close_object = a.close_object; words = a.words; codepoint = a.codepoint }) };
}

impl FirstWord {
    /// The word in the first four bytes.
    pub(crate) fn read(bytes: &[u8]) -> FirstWord
        requires { 4 ≤ length bytes.now }
        ensures { result ≡ word_in bytes.now }
    {
        let flags = bytes[1];
        FirstWord {
            c: bytes[0] / 4 % 4,
            s: flags / 128,
            o: flags / 32 % 4,
            h: flags / 16 % 2,
            close_session: flags / 2 % 2 == 1,
            close_object: flags % 2 == 1,
            words: bytes[2],
            codepoint: bytes[3],
        }
    }

    /// Its four bytes, with zeros for PSI and the reserved bits.
    pub(crate) fn to_bytes(&self) -> [u8; 4]
        ensures { result ≡ word_bytes self.now 0 0 }
    {
        let flags = 128 * self.s
            + 32 * self.o
            + 16 * self.h
            + 2 * u8::from(self.close_session)
            + u8::from(self.close_object);
        [16 + 4 * self.c, flags, self.words, self.codepoint]
    }

    /// The length of the field CCI in bytes.
    pub(crate) fn cci_length(&self) -> usize
        ensures { result ≡ cci_length self.now }
    {
        4 * (usize::from(self.c) + 1)
    }

    /// The length of the TSI in bytes.
    pub(crate) fn tsi_length(&self) -> usize
        ensures { result ≡ tsi_length self.now }
    {
        4 * usize::from(self.s) + 2 * usize::from(self.h)
    }

    /// The length of the TOI in bytes.
    pub(crate) fn toi_length(&self) -> usize
        ensures { result ≡ toi_length self.now }
    {
        4 * usize::from(self.o) + 2 * usize::from(self.h)
    }

    /// The whole header's length in bytes.
    pub(crate) fn length(&self) -> usize
        ensures { result ≡ 4 * self.now.words }
    {
        4 * usize::from(self.words)
    }
}
