//! Objects and encoding symbols, made by an encoder of its own (`sample/make_sample.py`).

/// The file at `a` with the body `hi`, as an object.
pub const HI_FILE: &[u8] =
    b"\x02\x00\xEE\xDF\x00\x00\x000Content-Location: a\r\nContent-Length: 2\r\nhi";

/// The descriptor of instance 1 that lists object 1.
pub const LIST_ONE: &[u8] = b"\x03\x00i\xFA\x00\x00\x00\x19Fcast-CID-ID: 1\r\n\x00\x00\x001";

/// The descriptor of instance 2 that lists object 1.
pub const LIST_ONE_OF_TWO: &[u8] = b"\x03\x00h\xFA\x00\x00\x00\x19Fcast-CID-ID: 2\r\n\x00\x00\x001";

/// Encoding symbol 2 of the descriptor that lists object 1, in symbols of 25 bytes, a block of 2.
pub const LIST_ONE_REPAIR: &[u8] =
    b"\x06\x00\xD2\xBA\x00\x00\x002\x8C\xC6\xC2\xE6\xE8Z\x86\x92\x88Z\x92\x88t@b\x1A\x14";

/// Encoding symbol 2 of the file, coded so.
pub const HI_FILE_REPAIR: &[u8] =
    b"d\xA3\xD6\xBD\xC5\xB1\xB2\xFC)l@\x9F\x1EsZ\xF3\x04f\x88\xA2\xBE\xC5\xC0d\xCF";

/// The encoding symbols 2 and 3 of the descriptor of instance 1 with an empty list, in symbols of 14 bytes, a block of 2.
pub const EMPTY_REPAIRS: &[u8] =
    b"\xC3\xDB\xE5\x9E\xDB\xCCNR\xDF\xD1\xDC\xE6\xE8Z\xDE\xE2\xBA\xE5\xE2\xC1\xA6\xB6\x1Etm7%\xEE";

/// The descriptor of instance 7 with the list `1-3,2,7`.
pub const LIST_RANGES: &[u8] =
    b"\x03\x00\xC7t\x00\x00\x00\x19Fcast-CID-ID: 7\r\n\x00\x00\x001-3,2,7";

/// The descriptor of instance 7 with the list `3-1`.
pub const LIST_FALLING: &[u8] = b"\x03\x000\xCD\x00\x00\x00\x19Fcast-CID-ID: 7\r\n\x00\x00\x003-1";

/// The descriptor of instance 7 with the list `1,3-1`.
pub const LIST_FALLING_LATER: &[u8] =
    b"\x03\x00\xFF\xA0\x00\x00\x00\x19Fcast-CID-ID: 7\r\n\x00\x00\x001,3-1";

/// The descriptor of instance 7 with the list `1,`.
pub const LIST_OPEN: &[u8] = b"\x03\x00c\xCE\x00\x00\x00\x19Fcast-CID-ID: 7\r\n\x00\x00\x001,";

/// The descriptor of instance 7 with the list `0-9999999`.
pub const LIST_LONG: &[u8] =
    b"\x03\x00\x80!\x00\x00\x00\x19Fcast-CID-ID: 7\r\n\x00\x00\x000-9999999";

/// The descriptor of instance 7 with the list `8`.
pub const LIST_ITSELF: &[u8] = b"\x03\x00\\\xFA\x00\x00\x00\x19Fcast-CID-ID: 7\r\n\x00\x00\x008";

/// The descriptor of instance 7 with the list `1,99`.
pub const LIST_ABSENT: &[u8] = b"\x03\x00*\x95\x00\x00\x00\x19Fcast-CID-ID: 7\r\n\x00\x00\x001,99";

/// The descriptor of instance 7 with the list `\r\n`.
pub const LIST_LINE_END: &[u8] =
    b"\x03\x00\x87\xF0\x00\x00\x00\x19Fcast-CID-ID: 7\r\n\x00\x00\x00\r\n";

/// The front of a descriptor of 255 bytes of instance 1 that lists object 1: from here on 222 times `a`, CR, LF and `1-1`.
pub const LONG_LIST_FRONT: &[u8] = b"\x03\x00\xB7.\x00\x00\x00\xFCFcast-CID-ID: 1\r\nX: ";
