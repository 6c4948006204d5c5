//! Objects whose bytes other programs made.

/// A file under the location `a`, with the body `hi`.
pub const HI_FILE_OBJECT: &[u8; 50] =
    b"\x02\x00\xEE\xDF\x00\x00\x00\x30Content-Location: a\r\nContent-Length: 2\r\nhi";

/// A descriptor of number 1 with an empty list.
pub const EMPTY_DESCRIPTOR: &[u8; 28] =
    b"\x03\x00\x9A\xFA\x00\x00\x00\x19Fcast-CID-ID: 1\r\n\x00\x00\x00";

/// A descriptor of number 1 that lists 1.
pub const LIST_ONE_DESCRIPTOR: &[u8; 29] =
    b"\x03\x00\x69\xFA\x00\x00\x00\x19Fcast-CID-ID: 1\r\n\x00\x00\x001";

/// A file under the location U+00E9, of the type `text/plain`, without bytes.
pub const FILE_WITH_TYPE: &[u8; 76] =
    b"\x02\x00\x1B4\x00\x00\x00KContent-Location: \xC3\xA9\r\nContent-Type: text/plain\r\nContent-Length: 0\r\n\x00";

/// A descriptor of number 4,294,967,295 that lists 0, 10 and the greatest identifier.
pub const LIST_OF_THREE: &[u8; 75] =
    b"\x03\x00\xA0\x12\x00\x00\x00\"Fcast-CID-ID: 4294967295\r\n\x00\x000,10,5192296858534827628530496329220095";
