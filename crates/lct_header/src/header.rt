//! What a header says.

ghost use Rattle.std.specs.Prelude.{◌≤◌, length};
ghost use Rattle.lct_header.specs.Extensions.{AreExtensions};

use crate::area::Extensions;
use std::marker::Model;

/// A header's flags, numbers and codepoint (RFC 5651, section 5.1). Its type keeps that `tsi_bits` is 0, 16, 32 or
/// 48, that `toi_bits` is a multiple of 16 up to 112, that both are odd multiples of 16 or both even, and that each
/// number fits its bits.
#[derive(Clone, Copy, Debug, PartialEq, Eq)]
pub struct Header {
    /// Whether the session closes (the flag A).
    pub close_session: bool,
    /// Whether the object closes (the flag B).
    pub close_object: bool,
    /// The session (TSI); 0 where it has no bits.
    pub tsi: u64,
    /// The bits of the TSI's field.
    pub tsi_bits: u8,
    /// The object in it (TOI); 0 where it has no bits.
    pub toi: u128,
    /// The bits of the TOI's field.
    pub toi_bits: u8,
    /// The codepoint (CP).
    pub codepoint: u8,
}

impl Model for Header {
    ghost use Rattle.lct_header.specs.Header.{Header, IsHeader};

    ghost Value = { Header };

    ghost view = { λ a.
        record { close_session = a.close_session; close_object = a.close_object; tsi = a.tsi; tsi_bits = a.tsi_bits; toi = a.toi; toi_bits = a.toi_bits; codepoint = a.codepoint } };

    ghost invariant = { λ a. IsHeader (
        record { close_session = a.close_session; close_object = a.close_object; tsi = a.tsi; tsi_bits = a.tsi_bits; toi = a.toi; toi_bits = a.toi_bits; codepoint = a.codepoint }) };

    ghost inverse = { λ d.
        record { close_session = d.close_session; close_object = d.close_object; tsi = d.tsi; tsi_bits = d.tsi_bits; toi = d.toi; toi_bits = d.toi_bits; codepoint = d.codepoint } };
}

/// A header that was read, with the bytes of its extensions. Its type keeps that the area is a list of extensions
/// without a fault, and that the length is that of the first word, one to four words of CCI, the numbers and the area,
/// at most 1,020.
#[derive(Debug, Drop)]
pub struct HeaderView<'a> {
    pub header: Header,
    /// The whole header's length in bytes.
    pub length: usize,
    /// The bytes of the extensions: the end of the header.
    pub area: &'a [u8],
}

impl<'a> Model for HeaderView<'a> {
    ghost use Rattle.lct_header.specs.HeaderView.{HeaderView, IsView};

    ghost Value = { HeaderView };

    ghost view = { λ a. record { header = a.header; length = a.length; area = a.area.now } };

    ghost invariant = { λ a. IsView (record { header = a.header; length = a.length; area = a.area.now }) };
}

/// The extensions of a header, in order; there are at most 255.
pub fn extensions<'a>(view: &HeaderView<'a>) -> Extensions<'a>
    ensures all { AreExtensions view.now.area result }
    ensures few { length result ≤ 255 }
{
    Extensions { rest: view.area }
}
