//! Bodies that are cut, and the types of slices.

use super::same::same;
use slice_join::{cut, is_slice_kind};
use std::test::Fail;

#[test]
fn types(rt: HostRuntime) {
    let cases = [
        (1, "fcast-slice", true),
        (2, "fcast-slice;", true),
        (3, "fcast-slice;text/plain", true),
        (4, "fcast-slice;a;b", true),
        (5, "", false),
        (6, "fcast-slic", false),
        (7, "fcast-slices", false),
        (8, "Fcast-slice", false),
        (9, " fcast-slice;a", false),
        (10, "text/plain;fcast-slice", false),
    ];
    for (row, kind, wanted) in cases {
        same(&rt, &is_slice_kind(kind), &wanted, row);
    }
}

#[test]
fn pieces(rt: HostRuntime) -> Result<(), Fail> {
    let bodies: [(u32, &[u8]); 3] = [
        (21, b"\0\0\0\x01\0\0\0\x03\0\0\0\0\0\0\0\x05he"),
        (22, b"\0\0\0\x02\0\0\0\x03\0\0\0\0\0\0\0\x05ll"),
        (23, b"\0\0\0\x03\0\0\0\x03\0\0\0\0\0\0\0\x05o"),
    ];
    let found = cut(rt.alloc(), Some("text/plain"), b"hello", 2)?;
    same(&rt, &found.len(), &3, 20);
    for (piece, (row, body)) in found.iter().zip(bodies) {
        same(&rt, &piece.kind.as_str(), &"fcast-slice;text/plain", row);
        same(&rt, &piece.body.as_slice(), &body, row);
    }
    Ok(())
}

#[test]
fn numbers_of_pieces(rt: HostRuntime) -> Result<(), Fail> {
    let cases = [(31, 1, 5), (32, 2, 3), (33, 3, 2), (34, 4, 2)];
    for (row, size, count) in cases {
        let found = cut(rt.alloc(), None, b"hello", size)?;
        same(&rt, &found.len(), &count, row);
        for piece in found.as_slice() {
            same(&rt, &piece.kind.as_str(), &"fcast-slice", row);
        }
    }
    Ok(())
}
