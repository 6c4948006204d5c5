//! Bytes of a reader that is cut short and fails.

use super::devices::{ALWAYS, FaultyReader, at, compare_failures, reader};
use super::same::same;
use edge_io::{Bytes, Failed};
use edge_real::{ReaderBytes, Tried};
use std::io::ErrorKind;
use std::process::Abort;
use std::test::Fail;

/// Reads three bytes one by one and then their end, where the read of this number fails. The read
/// after it gives so many bytes.
fn read_around(
    rt: &impl Abort,
    bytes: &mut ReaderBytes<FaultyReader>,
    call: u32,
    left: usize,
    row: u32,
) {
    let mut out = [0u8; 4];
    for _ in 1..call {
        same(rt, &bytes.read(&mut out), &Ok(1), row);
    }
    compare_failures(rt, &bytes.failures, 0, None, row);
    same(rt, &bytes.read(&mut out), &Err(Failed), row);
    compare_failures(
        rt,
        &bytes.failures,
        1,
        Some(ErrorKind::PermissionDenied),
        row,
    );
    same(rt, &bytes.read(&mut out), &Ok(left), row);
    same(rt, &bytes.failures.count, &1, row);
}

/// A failed read is no end: the bytes behind it are read afterwards.
#[test]
fn failed_read_is_a_failure_and_no_end(rt: HostRuntime) -> Result<(), Fail> {
    let alloc = rt.alloc();
    for (call, left) in [(1, 1), (2, 1), (3, 1), (4, 0)] {
        let fault = at(call, ErrorKind::PermissionDenied);
        let mut bytes = ReaderBytes::new(reader(alloc, b"abc", fault)?);
        read_around(&rt, &mut bytes, call, left, call);
    }
    Ok(())
}

#[test]
fn interrupted_read_is_tried_a_thousand_times(rt: HostRuntime) -> Result<(), Fail> {
    let alloc = rt.alloc();
    let mut out = [0u8; 4];
    let fault = at(1, ErrorKind::Interrupted);
    let mut bytes = ReaderBytes::new(Tried::new(reader(alloc, b"a", fault)?));
    same(&rt, &bytes.read(&mut out), &Ok(1), 5);
    same(&rt, &out, b"a\0\0\0", 6);
    same(&rt, &bytes.read(&mut out), &Ok(0), 7);
    same(&rt, &bytes.failures.count, &0, 8);

    let mut never = ReaderBytes::new(Tried::new(reader(alloc, b"a", ALWAYS)?));
    same(&rt, &never.read(&mut out), &Err(Failed), 9);
    same(&rt, &never.reader.device.call, &1_000, 10);
    compare_failures(&rt, &never.failures, 1, Some(ErrorKind::Other), 11);
    Ok(())
}
