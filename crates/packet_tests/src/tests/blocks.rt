//! How objects are cut into blocks, and their transmission information as bytes.

use super::same::same;
use oti_blocks::{Oti, OtiFault, read_fti};
use std::process::Abort;
use std::test::Fail;

/// Transmission information whose values the proof doesn't know.
fn stated(length: u64, symbol: u16, max_block: u8, max_n: u8) -> Result<Oti, OtiFault> {
    if length < 1 << 48 {
        Oti::new(length, symbol, max_block, max_n)
    } else {
        Err(OtiFault::TooManyBlocks)
    }
}

/// Asserts how many source symbols and blocks an object has, and how many of its bytes its last symbol has.
fn check_whole(rt: &impl Abort, oti: &Oti, sources: u64, blocks: u32, last: u16, row: u32) {
    same(rt, &oti.sources(), &sources, row);
    same(rt, &oti.blocks(), &blocks, row);
    same(rt, &oti.last_length(), &last, row);
}

/// Asserts the source symbols of a block, its encoding symbols, and where it starts.
fn check_block(
    rt: &impl Abort,
    oti: &Oti,
    number: u32,
    k: u8,
    n: u8,
    start: u64,
    row: u32,
) -> Result<(), Fail> {
    if number >= oti.blocks() {
        return Err(Fail::from("a block of the object"));
    }
    same(rt, &oti.block_k(number), &k, row);
    same(rt, &oti.block_n(number), &n, row);
    same(rt, &oti.block_start(number), &start, row);
    Ok(())
}

#[test]
fn objects_are_cut(rt: HostRuntime) -> Result<(), Fail> {
    let small = stated(10_000, 1_000, 4, 6)?;
    check_whole(&rt, &small, 10, 3, 1_000, 1);
    check_block(&rt, &small, 0, 4, 6, 0, 2)?;
    check_block(&rt, &small, 1, 3, 4, 4, 3)?;
    check_block(&rt, &small, 2, 3, 4, 7, 4)?;

    let large = stated(1_000_000_000_000, 60_000, 255, 255)?;
    check_whole(&rt, &large, 16_666_667, 65_360, 40_000, 5);
    check_block(&rt, &large, 65_359, 254, 254, 16_666_413, 6)?;

    let longest = stated((1 << 24) * 255 * 65_535, 65_535, 255, 255)?;
    check_whole(&rt, &longest, (1 << 24) * 255, 1 << 24, 65_535, 7);
    Ok(())
}

#[test]
fn faults(rt: HostRuntime) {
    let too_many = OtiFault::TooManyBlocks;
    let table = [
        (10, 8, 0, 0, 0, OtiFault::ZeroSymbol),
        (11, 8, 1, 0, 0, OtiFault::ZeroBlock),
        (12, 7, 1, 2, 1, OtiFault::MaxN),
        (13, 7, 1, 1, 1, OtiFault::ShortObject),
        (14, (1 << 24) + 1, 1, 1, 1, too_many),
        (15, (1 << 24) * 255 * 65_535 + 1, 65_535, 255, 255, too_many),
        (16, (1 << 48) - 1, 65_535, 255, 255, too_many),
    ];
    for (row, length, symbol, max_block, max_n, fault) in table {
        let made = stated(length, symbol, max_block, max_n);
        same(&rt, &made.err(), &Some(fault), row);
    }
    same(&rt, &stated(1 << 24, 1, 1, 1).is_ok(), &true, 17);
    let short = read_fti(&[0, 0, 0, 0, 0, 28, 0, 28, 1]);
    same(
        &rt,
        &short.err(),
        &Some(OtiFault::FtiLength { length: 9 }),
        18,
    );
    let zero = read_fti(&[0, 0, 0, 0, 0, 28, 0, 0, 1, 1]);
    same(&rt, &zero.err(), &Some(OtiFault::ZeroSymbol), 19);
}

#[test]
fn extensions_are_spelled(rt: HostRuntime) -> Result<(), Fail> {
    let table: [(u32, u64, u16, u8, u8, [u8; 12]); 3] = [
        (
            20,
            28,
            28,
            1,
            1,
            [0x40, 3, 0, 0, 0, 0, 0, 0x1C, 0, 0x1C, 1, 1],
        ),
        (
            21,
            29,
            25,
            2,
            3,
            [0x40, 3, 0, 0, 0, 0, 0, 0x1D, 0, 0x19, 2, 3],
        ),
        (
            22,
            50,
            25,
            2,
            3,
            [0x40, 3, 0, 0, 0, 0, 0, 0x32, 0, 0x19, 2, 3],
        ),
    ];
    for (row, length, symbol, max_block, max_n, bytes) in table {
        let oti = stated(length, symbol, max_block, max_n)?;
        same(&rt, &oti.fti(), &bytes, row);
        same(&rt, &read_fti(&bytes[2..]).ok(), &Some(oti), row);
    }
    Ok(())
}
