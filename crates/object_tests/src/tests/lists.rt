//! The lists of descriptors.

use super::kinds::{cause, descriptor, is_descriptor, kind_with};
use super::same::same;
use carousel_cid::{Cause, Kind};
use std::alloc::{AllocError, Global};
use std::process::Abort;
use std::test::Fail;

/// The widest range of identifiers.
const WIDEST: &[u8; 36] = b"0-5192296858534827628530496329220095";

/// The field of a descriptor of number 7.
const NUMBER: &[u8; 16] = b"Fcast-CID-ID: 7\n";

#[test]
fn lists_that_are_read(rt: HostRuntime) -> Result<(), Fail> {
    let cases: [(u32, &[u8], &[u128]); 16] = [
        (1, b"", &[]),
        (2, b"\n", &[]),
        (3, b"\r\n", &[]),
        (4, b"1", &[1]),
        (5, b"1\n", &[1]),
        (6, b"1,2\r\n", &[1, 2]),
        (7, b"1-3,2,7", &[1, 2, 3, 7]),
        (8, b"7,2,1-3", &[7, 2, 1, 3]),
        (9, b"5-5,0005,5", &[5]),
        (
            10,
            b"00000000000000000000000000000000000000000000000000000000001-2",
            &[1, 2],
        ),
        (
            11,
            b"5192296858534827628530496329220095",
            &[5192296858534827628530496329220095],
        ),
        (
            12,
            b"5192296858534827628530496329220094-5192296858534827628530496329220095",
            &[
                5192296858534827628530496329220094,
                5192296858534827628530496329220095,
            ],
        ),
        (
            13,
            b"3-6,1-9,5-12",
            &[3, 4, 5, 6, 1, 2, 7, 8, 9, 10, 11, 12],
        ),
        (14, b"1,3,5,1-6,0-7", &[1, 3, 5, 2, 4, 6, 0, 7]),
        (15, b"4,5,6,1-3,2-5,6-7", &[4, 5, 6, 1, 2, 3, 7]),
        (16, b"0,0-1,3-4,2-5", &[0, 1, 3, 4, 2, 5]),
    ];
    for (row, body, listed) in cases {
        let kind = kind_with(rt.alloc(), true, NUMBER, body)?;
        same(
            &rt,
            &is_descriptor(rt.alloc(), &kind, 7, listed)?,
            &true,
            row,
        );
    }
    Ok(())
}

#[test]
fn lists_that_are_bad(rt: HostRuntime) -> Result<(), Fail> {
    let cases: [(u32, &[u8], u64); 20] = [
        (21, b"3-1", 0),
        (22, b"1,3-1", 2),
        (23, b"1,", 2),
        (24, b",", 0),
        (25, b",1", 0),
        (26, b"1,,2", 2),
        (27, b"1,2,", 4),
        (28, b"10,20,x,y", 6),
        (29, b" 1", 0),
        (30, b"1, 2", 2),
        (31, b"1\r", 0),
        (32, b"1\n\n", 0),
        (33, b"1\r\r\n", 0),
        (34, b"1,\r\n", 2),
        (35, b"1-", 0),
        (36, b"-1", 0),
        (37, b"1-2-3", 0),
        (38, b"+1", 0),
        (39, b"1,5192296858534827628530496329220096", 2),
        (40, b"0-5192296858534827628530496329220096", 0),
    ];
    for (row, body, at) in cases {
        let kind = kind_with(rt.alloc(), true, NUMBER, body)?;
        same(&rt, &cause(kind), &Some(Cause::BadList { at }), row);
    }
    Ok(())
}

/// So many times the same entry, with commas between.
fn repeated(alloc: Global, entry: &[u8], count: usize) -> Result<Vec<u8>, AllocError> {
    let mut list = Vec::new(alloc);
    for i in 0..count {
        if i > 0 {
            list.push(b',')?;
        }
        list.extend_from_slice(entry)?;
    }
    Ok(list)
}

/// The numbers below this one, with commas between.
fn numbers(alloc: Global, count: u32) -> Result<Vec<u8>, AllocError> {
    let mut list = Vec::new(alloc);
    for i in 0..count {
        if i > 0 {
            list.push(b',')?;
        }
        list.extend_from_slice(i.to_string(alloc)?.as_bytes())?;
    }
    Ok(list)
}

/// How many identifiers are listed; none where it is no descriptor.
fn listed(alloc: Global, kind: &Kind) -> Result<Option<usize>, AllocError> {
    match descriptor(alloc, kind)? {
        Some((_number, listed)) => Ok(Some(listed.as_slice().len())),
        None => Ok(None),
    }
}

/// Asserts how many identifiers a list has.
fn check_count(
    rt: &impl Abort,
    alloc: Global,
    body: &[u8],
    count: usize,
    row: u32,
) -> Result<(), Fail> {
    let kind = kind_with(alloc, true, NUMBER, body)?;
    same(rt, &listed(alloc, &kind)?, &Some(count), row);
    Ok(())
}

/// Asserts that a list is too long.
fn check_long(rt: &impl Abort, alloc: Global, body: &[u8], row: u32) -> Result<(), Fail> {
    let kind = kind_with(alloc, true, NUMBER, body)?;
    same(rt, &cause(kind), &Some(Cause::ListTooLong), row);
    Ok(())
}

#[test]
fn lists_of_the_greatest_length(rt: HostRuntime) -> Result<(), Fail> {
    let alloc = rt.alloc();
    check_count(&rt, alloc, b"1-4096", 4096, 51)?;
    check_count(&rt, alloc, b"1-4000,2-97", 4000, 52)?;
    check_count(&rt, alloc, &numbers(alloc, 4096)?, 4096, 53)?;
    check_count(&rt, alloc, &repeated(alloc, b"1", 4096)?, 1, 54)?;
    check_long(&rt, alloc, b"1-4097", 55)?;
    check_long(&rt, alloc, b"1-4000,2-98", 56)?;
    check_long(&rt, alloc, &numbers(alloc, 4097)?, 57)?;
    check_long(&rt, alloc, &repeated(alloc, b"1", 4097)?, 58)?;
    check_long(&rt, alloc, WIDEST, 59)?;
    check_long(&rt, alloc, &repeated(alloc, WIDEST, 65536)?, 60)
}
