//! Bytes that are all zero.

use super::same::same;
use wire_bytes::is_zero;

#[test]
fn zeros_alone_are_zero(rt: HostRuntime) {
    let cases: [(u32, &[u8], bool); 4] = [
        (1, &[], true),
        (2, &[0, 0, 0], true),
        (3, &[0, 0, 1], false),
        (4, &[7, 0], false),
    ];
    for (row, bytes, zero) in cases {
        same(&rt, &is_zero(bytes), &zero, row);
    }
}
