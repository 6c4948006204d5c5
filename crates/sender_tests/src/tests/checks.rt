//! What refuses a catalog.

use super::plans::PARAMS;
use super::same::same;
use sender_plan::{MOST_BYTES, Params, PlanFault, check, read_catalog};
use std::alloc::{AllocError, Global};
use std::process::Abort;
use std::test::Fail;

/// Asserts what refuses the catalog of a text.
fn check_fault(
    rt: &impl Abort,
    alloc: Global,
    text: &[u8],
    params: &Params,
    wanted: Option<PlanFault>,
    row: u32,
) -> Result<(), Fail> {
    let catalog = read_catalog(alloc, text)?;
    same(rt, &check(&catalog, params).err(), &wanted, row);
    Ok(())
}

/// Numbers that don't rise, and a block that is larger than its encoding symbols.
#[test]
fn catalogs_that_are_refused(rt: HostRuntime) -> Result<(), Fail> {
    let second = Some(PlanFault::NumberNotRising { at: 2 });
    let third = Some(PlanFault::NumberNotRising { at: 3 });
    let block = Some(PlanFault::Params);
    let cases: [(u32, &[u8], u8, u8, Option<PlanFault>); 8] = [
        (1, b"", 2, 3, None),
        (2, b"instance\t0\n", 2, 3, None),
        (3, b"instance\t1\ninstance\t3\n", 2, 3, None),
        (4, b"instance\t2\ninstance\t1\n", 2, 3, second),
        (
            5,
            b"instance\t1\ninstance\t2\ninstance\t2\ninstance\t1\n",
            2,
            3,
            third,
        ),
        (6, b"instance\t1\n", 4, 3, block),
        (7, b"instance\t2\ninstance\t1\n", 4, 3, second),
        (8, b"instance\t1\n", 4, 4, None),
    ];
    for (row, text, max_block, max_n, wanted) in cases {
        let mut params = PARAMS;
        params.max_block = max_block;
        params.max_n = max_n;
        check_fault(&rt, rt.alloc(), text, &params, wanted, row)?;
    }
    Ok(())
}

/// A text of two instances; the second has so many files.
fn second_with(alloc: Global, files: u32) -> Result<String, AllocError> {
    let mut text = String::from_str(alloc, "instance\t1\ninstance\t2\n")?;
    for _file in 0..files {
        text.push_str("file\tf\ta\n")?;
    }
    Ok(text)
}

#[test]
fn one_file_too_many(rt: HostRuntime) -> Result<(), Fail> {
    let alloc = rt.alloc();
    let most = second_with(alloc, 4096)?;
    check_fault(&rt, alloc, most.as_bytes(), &PARAMS, None, 10)?;
    let more = second_with(alloc, 4097)?;
    let wanted = Some(PlanFault::TooManyFiles { at: 2 });
    check_fault(&rt, alloc, more.as_bytes(), &PARAMS, wanted, 11)?;
    same(&rt, &MOST_BYTES, &268_435_456, 12);
    Ok(())
}
