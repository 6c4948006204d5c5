//! The byte count against its budget, and the row steps.

use super::keeping::{Keeping, NEW, READY, SOLVED, Sizes, counts, holds, is_whole, keeps};
use super::same::same;
use object_store::Kept;
use std::alloc::Global;
use std::process::Abort;
use std::test::*;

/// Keeps eight symbols of an object, which are alike: this many of them are new, and the others over the budget.
fn keeps_within(
    rt: &impl Abort,
    keeping: &mut Keeping,
    of: &Sizes,
    symbol: &[u8],
    kept: u8,
    over: Kept,
    row: u32,
) {
    for esi in 0..8u8 {
        let wanted = if esi < kept { NEW } else { over };
        keeps(rt, keeping, of, 0, esi, symbol, wanted, row);
    }
    holds(rt, keeping, of.toi, 0, kept, row);
    same(rt, &keeping.budget(), &4096, row);
    same(rt, &keeping.oti(of.toi), &of.oti(), row);
}

/// The symbols of which the budgets' objects consist.
const SEVENS: [u8; 1000] = [7; 1000];

/// 256 are counted for an object, 64 for its block and the length of each symbol.
fn bounds(
    rt: &impl Abort,
    alloc: Global,
    of: &Sizes,
    symbol: &[u8],
    kept: u8,
    count: u64,
    row: u32,
) -> Result<(), Fail> {
    let mut keeping = Keeping::start(alloc, 4096)?;
    let charge = u64::from(of.symbol);
    let over = Kept::OverBudget { count, charge };
    keeps_within(rt, &mut keeping, of, symbol, kept, over, row);
    counts(rt, &keeping, count, 0, row);
    Ok(())
}

#[test]
fn the_budget_bounds_the_count(rt: HostRuntime) -> Result<(), Fail> {
    let first = Sizes::new(1, 8000, 1000, 8, 8);
    let second = Sizes::new(1, 7552, 944, 8, 8);
    bounds(&rt, rt.alloc(), &first, &SEVENS, 3, 3320, 1)?;
    bounds(&rt, rt.alloc(), &second, &SEVENS[..944], 4, 4096, 2)
}

/// Keeps a symbol of each of a thousand objects.
fn keeps_thousand(rt: &impl Abort, keeping: &mut Keeping) {
    let over = Kept::OverBudget {
        count: 3852,
        charge: 321,
    };
    for toi in 1..1001u32 {
        let of = Sizes::new(toi, 8, 1, 8, 8);
        let wanted = if toi <= 12 { NEW } else { over };
        keeps(
            rt,
            keeping,
            &of,
            0,
            0,
            &[0],
            wanted,
            toi.saturating_add(10_000),
        );
    }
}

#[test]
fn many_identifiers_meet_the_budget(rt: HostRuntime) -> Result<(), Fail> {
    let mut keeping = Keeping::start(rt.alloc(), 4096)?;
    keeps_thousand(&rt, &mut keeping);
    counts(&rt, &keeping, 3852, 0, 3);
    same(&rt, &keeping.oti(13), &None, 4);
    Ok(())
}

/// A symbol of 60,000 bytes.
const LONG: [u8; 60_000] = [7; 60_000];

#[test]
fn an_object_of_which_only_the_last_block_is_open(rt: HostRuntime) -> Result<(), Fail> {
    let of = Sizes::new(9, 1_000_000_000_000, 60_000, 255, 255);
    let mut keeping = Keeping::start(rt.alloc(), 67_108_864)?;
    keeps(&rt, &mut keeping, &of, 65_359, 0, &LONG, NEW, 5);
    counts(&rt, &keeping, 60_320, 0, 6);
    is_whole(&rt, &keeping, 9, None, 7);
    holds(&rt, &keeping, 9, 65_359, 1, 8);
    holds(&rt, &keeping, 9, 65_358, 0, 9);
    holds(&rt, &keeping, 9, 70_000, 0, 10);
    Ok(())
}

/// Keeps the symbols of two objects, one of which comes under the other's transmission information.
fn keeps_two(rt: &impl Abort, keeping: &mut Keeping) {
    let first = Sizes::new(1, 8, 4, 2, 4);
    let second = Sizes::new(2, 8, 4, 2, 5);
    let other = Sizes::new(1, 8, 4, 2, 5);
    keeps(rt, keeping, &first, 0, 0, &[1; 4], NEW, 11);
    keeps(rt, keeping, &second, 0, 0, &[2; 4], NEW, 12);
    let differs = first.oti().map(Kept::OtiDiffers);
    same(rt, &keeping.keep(&other, 0, 1, &[3; 4]), &differs, 13);
    keeps(rt, keeping, &second, 0, 1, &[3; 4], READY, 14);
    is_whole(rt, keeping, 1, None, 15);
    keeps(rt, keeping, &first, 0, 1, &[4; 4], READY, 16);
}

#[test]
fn two_objects_at_once(rt: HostRuntime) -> Result<(), Fail> {
    let mut keeping = Keeping::start(rt.alloc(), 4096)?;
    keeps_two(&rt, &mut keeping);
    is_whole(&rt, &keeping, 1, Some(&[1, 1, 1, 1, 4, 4, 4, 4]), 17);
    is_whole(&rt, &keeping, 2, Some(&[2, 2, 2, 2, 3, 3, 3, 3]), 18);
    is_whole(&rt, &keeping, 3, None, 19);
    same(&rt, &keeping.ready(), &[2, 1].as_slice(), 20);
    counts(&rt, &keeping, 656, 0, 21);
    Ok(())
}

/// Solves ten blocks by their repair symbols, in four steps each.
fn solves_ten(rt: &impl Abort, keeping: &mut Keeping, of: &Sizes) {
    for sbn in 0..10u32 {
        let done = if sbn == 9 { READY } else { SOLVED };
        let row = sbn.saturating_add(1_000);
        keeps(rt, keeping, of, sbn, 2, &[0x05], NEW, row);
        keeps(rt, keeping, of, sbn, 3, &[0x09], done, row);
        let steps = u64::from(sbn).saturating_add(1).saturating_mul(4);
        same(rt, &keeping.steps(), &steps, row);
    }
}

const TEN_BLOCKS: &[u8] = b"\0\x03\0\x03\0\x03\0\x03\0\x03\0\x03\0\x03\0\x03\0\x03\0\x03";

#[test]
fn steps_of_a_row_of_blocks(rt: HostRuntime) -> Result<(), Fail> {
    let of = Sizes::new(7, 20, 1, 2, 5);
    let mut keeping = Keeping::start(rt.alloc(), 4096)?;
    solves_ten(&rt, &mut keeping, &of);
    is_whole(&rt, &keeping, 7, Some(TEN_BLOCKS), 22);
    keeps(&rt, &mut keeping, &of, 4, 4, &[0x11], Kept::Spare, 23);
    same(&rt, &keeping.steps(), &40, 24);
    Ok(())
}

/// Keeps all source symbols of a block of 64.
fn keeps_sources(rt: &impl Abort, keeping: &mut Keeping, of: &Sizes, sbn: u32) {
    let last = if sbn == 1599 { READY } else { SOLVED };
    for esi in 0..64u8 {
        let wanted = if esi == 63 { last } else { NEW };
        keeps(
            rt,
            keeping,
            of,
            sbn,
            esi,
            &[esi; 16],
            wanted,
            sbn.saturating_add(2_000),
        );
    }
}

#[test]
fn a_hundred_thousand_packets(rt: HostRuntime) -> Result<(), Fail> {
    let of = Sizes::new(3, 1_638_400, 16, 64, 128);
    let mut keeping = Keeping::start(rt.alloc(), 1 << 30)?;
    for sbn in 0..1600u32 {
        keeps_sources(&rt, &mut keeping, &of, sbn);
    }
    counts(&rt, &keeping, 1_741_056, 0, 25);
    Ok(())
}
