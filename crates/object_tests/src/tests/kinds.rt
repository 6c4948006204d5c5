//! Objects that are files or descriptors.

use super::same::same;
use super::vectors::{FILE_WITH_TYPE, HI_FILE_OBJECT, LIST_OF_THREE, LIST_ONE_DESCRIPTOR};
use carousel_cid::{Cause, Identifiers, Kind, classify, kind_of, write_descriptor, write_file};
use compound_object::Compound;
use meta_text::{Fields, Label, is_value};
use std::alloc::{AllocError, Global};
use std::test::Fail;

/// What an object with this metadata and this body is.
pub fn kind_with(
    alloc: Global,
    descriptor: bool,
    metadata: &[u8],
    body: &[u8],
) -> Result<Kind, Fail> {
    let fields = Fields::read(alloc, metadata)?;
    let compound = Compound {
        descriptor,
        fields,
        body,
    };
    Ok(classify(alloc, &compound)?)
}

/// Why it is neither a file nor a descriptor.
pub fn cause(kind: Kind) -> Option<Cause> {
    match kind {
        Kind::Unusable(cause) => Some(cause),
        Kind::File { .. } => None,
        Kind::Descriptor { .. } => None,
    }
}

/// It is the file with these parts.
fn is_file(kind: &Kind, location: &str, text: Option<&str>, body: &[u8]) -> bool {
    match kind {
        Kind::File {
            location: found,
            kind,
            body: bytes,
        } => found.as_str() == location && is_type(kind, text) && bytes.as_slice() == body,
        _ => false,
    }
}

/// The type is this text, or none where there is none.
fn is_type(kind: &Option<Label>, text: Option<&str>) -> bool {
    match (kind, text) {
        (None, None) => true,
        (Some(label), Some(text)) => label.as_str() == text,
        _ => false,
    }
}

/// The number of a descriptor and what it lists, written out; none where it is no descriptor.
pub fn descriptor(alloc: Global, kind: &Kind) -> Result<Option<(u32, Identifiers)>, AllocError> {
    match kind {
        Kind::Descriptor { number, listed } => Ok(Some((*number, listed.write_out(alloc)?))),
        _ => Ok(None),
    }
}

/// It is the descriptor with these parts.
pub fn is_descriptor(
    alloc: Global,
    kind: &Kind,
    number: u32,
    listed: &[u128],
) -> Result<bool, AllocError> {
    match descriptor(alloc, kind)? {
        Some((found, tois)) => Ok(found == number && tois.as_slice() == listed),
        None => Ok(false),
    }
}

#[test]
fn vectors_are_read(rt: HostRuntime) -> Result<(), Fail> {
    let file = kind_of(rt.alloc(), HI_FILE_OBJECT)?;
    same(&rt, &is_file(&file, "a", None, b"hi"), &true, 1);
    let descriptor = kind_of(rt.alloc(), LIST_ONE_DESCRIPTOR)?;
    same(
        &rt,
        &is_descriptor(rt.alloc(), &descriptor, 1, &[1])?,
        &true,
        2,
    );
    Ok(())
}

/// The checksums are those of another program.
#[test]
fn vectors_are_written(rt: HostRuntime) -> Result<(), Fail> {
    if !is_value("a") || !is_value("\u{E9}") || !is_value("text/plain") {
        return Err(Fail::from("they are values"));
    }
    let file = write_file(rt.alloc(), "a", None, b"hi")?;
    same(&rt, &file.as_slice(), &HI_FILE_OBJECT.as_slice(), 3);
    let file = write_file(rt.alloc(), "\u{E9}", Some("text/plain"), b"")?;
    same(&rt, &file.as_slice(), &FILE_WITH_TYPE.as_slice(), 4);
    let written = write_descriptor(rt.alloc(), 1, &[1])?;
    same(&rt, &written.as_slice(), &LIST_ONE_DESCRIPTOR.as_slice(), 5);
    let list = [0, 10, 5192296858534827628530496329220095];
    let written = write_descriptor(rt.alloc(), 4294967295, &list)?;
    same(&rt, &written.as_slice(), &LIST_OF_THREE.as_slice(), 6);
    Ok(())
}

#[test]
fn files_that_are_read(rt: HostRuntime) -> Result<(), Fail> {
    let cases: [(u32, &[u8], &str, Option<&str>); 8] = [
        (11, b"Content-Location: a\n", "a", None),
        (
            12,
            b"CONTENT-LOCATION: a\ncontent-type: b\n",
            "a",
            Some("b"),
        ),
        (13, b"Content-Location: a\nContent-Type:\n", "a", Some("")),
        (14, b"Content-Location: \xC3\xA9\n", "\u{E9}", None),
        (15, b"Content-Location: a\nContent-Length: 2\n", "a", None),
        (
            16,
            b"Content-Location: a\nContent-Length: 000000000000000000000000000000000000000000002\n",
            "a",
            None,
        ),
        (17, b"X: 1\nX: 2\nContent-Location: a\n", "a", None),
        (
            18,
            b"Content-Location: a\nFcast-CID-ID: no number\nFcast-CID-Complete: 7\n",
            "a",
            None,
        ),
    ];
    for (row, metadata, location, text) in cases {
        let file = kind_with(rt.alloc(), false, metadata, b"hi")?;
        same(&rt, &is_file(&file, location, text, b"hi"), &true, row);
    }
    Ok(())
}

#[test]
fn descriptors_that_are_read(rt: HostRuntime) -> Result<(), Fail> {
    let cases: [(u32, &[u8], u32); 5] = [
        (21, b"Fcast-CID-ID: 0\n", 0),
        (22, b"fcast-cid-id: 4294967295\n", 4294967295),
        (
            23,
            b"Fcast-CID-ID: 00000000000000000000000000000000000000000000007\n",
            7,
        ),
        (
            24,
            b"Fcast-CID-ID: 7\nFcast-CID-Complete: any\nContent-Length: 3\n",
            7,
        ),
        (
            25,
            b"Fcast-CID-ID: 7\nContent-Location:\nContent-Type: x\n",
            7,
        ),
    ];
    for (row, metadata, number) in cases {
        let descriptor = kind_with(rt.alloc(), true, metadata, b"2,1")?;
        same(
            &rt,
            &is_descriptor(rt.alloc(), &descriptor, number, &[2, 1])?,
            &true,
            row,
        );
    }
    Ok(())
}
