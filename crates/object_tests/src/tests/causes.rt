//! Objects that are neither files nor descriptors, and why.

use super::kinds::{cause, kind_with};
use super::same::same;
use carousel_cid::{Cause, kind_of};
use std::test::Fail;

/// Each cause alone, and beside one that comes after it.
#[test]
fn causes_in_order(rt: HostRuntime) -> Result<(), Fail> {
    let cases: [(u32, bool, &[u8], &[u8], Cause); 22] = [
        (
            1,
            false,
            b"Content-Location: a\ncontent-location: a\n",
            b"hi",
            Cause::KnownTwice,
        ),
        (
            2,
            false,
            b"Content-Type: x\nContent-Type: y\nContent-Location: a\n",
            b"hi",
            Cause::KnownTwice,
        ),
        (
            3,
            false,
            b"Content-Length: 3\nContent-Length: 3\nContent-Location: a\n",
            b"hi",
            Cause::KnownTwice,
        ),
        (
            4,
            true,
            b"Fcast-CID-ID: 1\nFcast-CID-ID: 1\n",
            b"1",
            Cause::KnownTwice,
        ),
        (
            5,
            true,
            b"Fcast-CID-Complete: 1\nFcast-CID-Complete: 1\nFcast-CID-ID: 1\n",
            b"1",
            Cause::KnownTwice,
        ),
        (
            6,
            true,
            b"Content-Type: x\nContent-Type: y\nContent-Length: 3\n",
            b"1",
            Cause::KnownTwice,
        ),
        (
            7,
            false,
            b"Content-Location: a\nContent-Length: 3\n",
            b"hi",
            Cause::LengthDiffers,
        ),
        (
            8,
            false,
            b"Content-Location: a\nContent-Length: two\n",
            b"hi",
            Cause::LengthDiffers,
        ),
        (
            9,
            false,
            b"Content-Location: a\nContent-Length:\n",
            b"hi",
            Cause::LengthDiffers,
        ),
        (
            10,
            false,
            b"Content-Location: a\nContent-Length: 18446744073709551618\n",
            b"hi",
            Cause::LengthDiffers,
        ),
        (
            11,
            false,
            b"Content-Length: 3\n",
            b"hi",
            Cause::LengthDiffers,
        ),
        (
            12,
            true,
            b"Content-Length: 3\n",
            b"hi",
            Cause::LengthDiffers,
        ),
        (13, false, b"", b"hi", Cause::NoLocation),
        (14, false, b"Content-Location:\n", b"hi", Cause::NoLocation),
        (15, true, b"", b"1", Cause::NoNumber),
        (16, true, b"Content-Location: a\n", b"hi", Cause::NoNumber),
        (17, true, b"Fcast-CID-ID:\n", b"1", Cause::BadNumber),
        (
            18,
            true,
            b"Fcast-CID-ID: 4294967296\n",
            b"1",
            Cause::BadNumber,
        ),
        (19, true, b"Fcast-CID-ID: 1 \t 2\n", b"hi", Cause::BadNumber),
        (
            20,
            true,
            b"Fcast-CID-ID: 1\n",
            b"hi",
            Cause::BadList { at: 0 },
        ),
        (
            21,
            true,
            b"Fcast-CID-ID: 1\n",
            b"0-9999999,hi",
            Cause::BadList { at: 10 },
        ),
        (
            22,
            true,
            b"Fcast-CID-ID: 1\n",
            b"0-9999999",
            Cause::ListTooLong,
        ),
    ];
    for (row, descriptor, metadata, body, expected) in cases {
        let kind = kind_with(rt.alloc(), descriptor, metadata, body)?;
        same(&rt, &cause(kind), &Some(expected), row);
    }
    Ok(())
}

/// Bytes that are no compound object.
#[test]
fn faults_of_objects(rt: HostRuntime) -> Result<(), Fail> {
    let cases: [(u32, &[u8], u8); 8] = [
        (31, b"", 1),
        (32, b"\x42\x00\x00\x00\x00\x00\x00\x08", 2),
        (33, b"\x02\x00\x00\x00\x00\x00\x00\x07", 3),
        (34, b"\x02\x10\x00\x00\x00\x00\x00\x08", 4),
        (
            35,
            b"\x02\x01\xEE\xDF\x00\x00\x00\x30Content-Location: a\r\nContent-Length: 2\r\nhi",
            5,
        ),
        (36, b"\x02\x00\x00\x00\x00\x00\x00\x09\n\x00\x00\x01", 6),
        (
            37,
            b"\x02\x00\xEE\xDF\x00\x00\x00\x30Content-Location: a\r\nContent-Length: 2\r\nhh",
            7,
        ),
        (38, b"\x02\x00\x8C\xF6\x00\x00\x00\x09q\x00\x00\x00", 8),
    ];
    for (row, bytes, code) in cases {
        let kind = kind_of(rt.alloc(), bytes)?;
        same(&rt, &cause(kind), &Some(Cause::Compound(code)), row);
    }
    Ok(())
}
