//! Compound objects: read, written, refused, and their checksum.

use super::same::same;
use super::vectors::{EMPTY_DESCRIPTOR, HI_FILE_OBJECT, LIST_ONE_DESCRIPTOR};
use compound_object::{Blob, CompoundFault, checksum, read, write};
use meta_text::{Field, FieldFault};
use std::alloc::Global;
use std::process::Abort;
use std::test::Fail;

/// Asserts the parts of an object: whether it is a descriptor, one of its fields, and its body.
fn check_parts(
    rt: &impl Abort,
    alloc: Global,
    bytes: &[u8],
    descriptor: bool,
    field: (&str, &str),
    body: &[u8],
    row: u32,
) -> Result<(), Fail> {
    let compound = read(alloc, bytes)?;
    same(rt, &compound.descriptor, &descriptor, row);
    same(
        rt,
        &compound.fields.get(field.0),
        &Field::Once(field.1),
        row,
    );
    same(rt, &compound.body, &body, row);
    Ok(())
}

/// Asserts that an object that was read is written as the same bytes.
fn check_written(rt: &impl Abort, alloc: Global, bytes: &[u8], row: u32) -> Result<(), Fail> {
    let compound = read(alloc, bytes)?;
    if compound.fields.write()?.len() >= 100 {
        return Err(Fail::from("short fields"));
    }
    let written = write(alloc, compound.descriptor, &compound.fields, compound.body)?;
    same(rt, &written.as_slice(), &bytes, row);
    Ok(())
}

#[test]
fn vectors_are_read_and_written(rt: HostRuntime) -> Result<(), Fail> {
    let cases: [(u32, &[u8], bool, &str, &str, &[u8]); 3] = [
        (1, HI_FILE_OBJECT, false, "content-location", "a", b"hi"),
        (2, EMPTY_DESCRIPTOR, true, "fcast-cid-id", "1", b""),
        (3, LIST_ONE_DESCRIPTOR, true, "fcast-cid-id", "1", b"1"),
    ];
    for (row, bytes, descriptor, name, value, body) in cases {
        let field = (name, value);
        check_parts(&rt, rt.alloc(), bytes, descriptor, field, body, row)?;
        check_written(&rt, rt.alloc(), bytes, row)?;
    }
    Ok(())
}

#[test]
fn free_bits_are_read(rt: HostRuntime) -> Result<(), Fail> {
    let cases: [(u32, &[u8], bool, &[u8]); 4] = [
        (
            11,
            b"\x3E\x00\x2B\x4A\x00\x00\x00\x0Ca:b\nodd",
            false,
            b"odd",
        ),
        (
            12,
            b"\x00\x00\x3C\xAF\x00\x00\x00\x0Ca:b\nodd",
            false,
            b"odd",
        ),
        (
            13,
            b"\x00\x00\x3C\xAF\x00\x00\x00\x0Ca:b\nany other",
            false,
            b"any other",
        ),
        (14, b"\x3D\x00\xFF\xAE\x00\x00\x00\x0Ca:b\n", true, b""),
    ];
    for (row, bytes, descriptor, body) in cases {
        check_parts(&rt, rt.alloc(), bytes, descriptor, ("a", "b"), body, row)?;
    }
    Ok(())
}

#[test]
fn faults_in_order(rt: HostRuntime) {
    let no_colon = FieldFault::NoColon { line: 1 };
    let bad_name = FieldFault::BadName { line: 2 };
    let odd = CompoundFault::Checksum {
        stated: 0xFDF6,
        found: 0xFDF7,
    };
    let changed = CompoundFault::Checksum {
        stated: 0xEEDF,
        found: 0xEEE0,
    };
    let cases: [(u32, &[u8], CompoundFault); 15] = [
        (21, b"", CompoundFault::Short),
        (22, b"\x42\x00\x00\x00\x00\x00\x00", CompoundFault::Short),
        (
            23,
            b"\x42\x00\x00\x00\x00\x00\x00\x07",
            CompoundFault::Version,
        ),
        (
            24,
            b"\x02\x20\x00\x00\x00\x00\x00\x07",
            CompoundFault::HeaderLength,
        ),
        (
            25,
            b"\x02\x20\x00\x00\x00\x00\x00\x09\n",
            CompoundFault::HeaderLength,
        ),
        (
            26,
            b"\x02\x00\x00\x00\xFF\xFF\xFF\xFF",
            CompoundFault::HeaderLength,
        ),
        (
            27,
            b"\x02\x11\x00\x00\x00\x00\x00\x08",
            CompoundFault::Format,
        ),
        (
            28,
            b"\x02\x02\x00\x00\x00\x00\x00\x08",
            CompoundFault::Format,
        ),
        (
            29,
            b"\x02\x01\x00\x00\x00\x00\x00\x09\n\x00\x00\x01",
            CompoundFault::Gzip,
        ),
        (
            30,
            b"\x02\x01\xEE\xDF\x00\x00\x00\x30Content-Location: a\r\nContent-Length: 2\r\nhi",
            CompoundFault::Gzip,
        ),
        (
            31,
            b"\x02\x00\x00\x00\x00\x00\x00\x09\n\x00\x00\x01",
            CompoundFault::FillNotZero,
        ),
        (32, b"\x02\x00\xFD\xF6\x00\x00\x00\x08", odd),
        (
            33,
            b"\x02\x00\xEE\xDF\x00\x00\x00\x30Content-Location: a\r\nContent-Length: 2\r\nhh",
            changed,
        ),
        (
            34,
            b"\x02\x00\x8C\xF6\x00\x00\x00\x09q\x00\x00\x00",
            CompoundFault::Fields(no_colon),
        ),
        (
            35,
            b"\x02\x00\x01\xAF\x00\x00\x00\x0C\n:x\nz",
            CompoundFault::Fields(bad_name),
        ),
    ];
    for (row, bytes, fault) in cases {
        same(&rt, &read(rt.alloc(), bytes).err(), &Some(fault), row);
    }
}

/// The last two are the example of RFC 1071, section 3, and it with an odd end.
#[test]
fn checksums(rt: HostRuntime) {
    let cases: [(u32, &[u8], u16); 9] = [
        (41, b"", 0xFFFF),
        (42, b"\x00\x00", 0xFFFF),
        (43, b"\xFF\xFF", 0x0000),
        (44, b"\xFF\xFF\xFF\xFF\x00\x01", 0xFFFE),
        (45, b"\x01", 0xFEFF),
        (46, &[0xFF; 16], 0x0000),
        (47, &[0xFF; 17], 0x00FF),
        (48, b"\x00\x01\xF2\x03\xF4\xF5\xF6\xF7", 0x220D),
        (49, b"\x00\x01\xF2\x03\xF4\xF5\xF6\xF7\x22\x0D\x00", 0x0000),
    ];
    for (row, bytes, sum) in cases {
        same(&rt, &checksum(bytes), &sum, row);
    }
}

#[test]
fn blobs(rt: HostRuntime) -> Result<(), Fail> {
    let blob = Blob::new(b"bytes".to_vec(rt.alloc())?);
    same(&rt, &blob.copy()?.as_slice(), &b"bytes".as_slice(), 51);
    same(&rt, &blob.into_vec().as_slice(), &b"bytes".as_slice(), 52);
    Ok(())
}
