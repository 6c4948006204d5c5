//! Symbols that are held, again and changed.
ghost use Rattle.std.specs.Prelude.{◌<◌};

use super::keeping::{Keeping, NEW, READY, SOLVED, Sizes, counts, holds, is_whole, keeps};
use super::same::same;
use object_store::Kept;
use std::alloc::Global;
use std::process::Abort;
use std::test::*;

#[test]
fn a_repeat_does_not_count_toward_k(rt: HostRuntime) -> Result<(), Fail> {
    let of = Sizes::new(5, 16, 8, 2, 5);
    let mut keeping = Keeping::start(rt.alloc(), 4096)?;
    keeps(&rt, &mut keeping, &of, 0, 0, &[1; 8], NEW, 1);
    for _ in 0..4 {
        keeps(&rt, &mut keeping, &of, 0, 0, &[1; 8], Kept::Repeat, 2);
    }
    holds(&rt, &keeping, 5, 0, 1, 3);
    counts(&rt, &keeping, 328, 0, 4);
    is_whole(&rt, &keeping, 5, None, 5);
    Ok(())
}

/// The six symbols of a block of three rows, by another program.
const SYMBOLS: [[u8; 4]; 6] = [
    [0x46, 0x63, 0x61, 0x73],
    [0x74, 0x2D, 0x43, 0x49],
    [0x44, 0x3A, 0x20, 0x00],
    [0x69, 0x02, 0x7A, 0x66],
    [0x1A, 0x2A, 0x84, 0x5D],
    [0x58, 0x07, 0x50, 0xD0],
];

const FCAST_CID: &[u8] = b"Fcast-CID: ";

/// The object of that block alone.
fn one_block() -> Sizes {
    Sizes::new(2, 11, 4, 3, 6)
}

/// A symbol of the block.
fn symbol_of(esi: u8) -> [u8; 4] {
    if esi < 6 {
        SYMBOLS[usize::from(esi)]
    } else {
        [0; 4]
    }
}

/// Asserts that this symbol is held, and that each of its bytes counts.
fn each_byte_counts(
    rt: &impl Abort,
    keeping: &mut Keeping,
    of: &Sizes,
    sbn: u32,
    esi: u8,
    symbol: [u8; 4],
    row: u32,
) {
    keeps(rt, keeping, of, sbn, esi, &symbol, Kept::Repeat, row);
    for at in 0..4u8 {
        let mut other = symbol;
        other[usize::from(at)] ^= 1;
        let differs = Kept::SymbolDiffers { at: u16::from(at) };
        keeps(rt, keeping, of, sbn, esi, &other, differs, row);
    }
}

/// Asserts what becomes of a symbol, and of one with its first byte changed.
fn once_more(rt: &impl Abort, keeping: &mut Keeping, esi: u8, held: bool, row: u32) {
    let symbol = symbol_of(esi);
    let other = [symbol[0] ^ 0x80, symbol[1], symbol[2], symbol[3]];
    let (again, differs) = if held {
        (Kept::Repeat, Kept::SymbolDiffers { at: 0 })
    } else {
        (Kept::Spare, Kept::Spare)
    };
    keeps(rt, keeping, &one_block(), 0, esi, &symbol, again, row);
    keeps(rt, keeping, &one_block(), 0, esi, &other, differs, row);
}

/// Asserts that the block is solved by these symbols in this order, in three steps for each missing source symbol.
fn is_solved(rt: &impl Abort, keeping: &mut Keeping, a: u8, b: u8, c: u8, row: u32) {
    let of = one_block();
    keeps(rt, keeping, &of, 0, a, &symbol_of(a), NEW, row);
    keeps(rt, keeping, &of, 0, b, &symbol_of(b), NEW, row);
    same(rt, &keeping.steps(), &0, row);
    keeps(rt, keeping, &of, 0, c, &symbol_of(c), READY, row);
    is_whole(rt, keeping, 2, Some(FCAST_CID), row);
    let missing = u64::from(a >= 3) + u64::from(b >= 3) + u64::from(c >= 3);
    for esi in 0..6u8 {
        once_more(rt, keeping, esi, esi == a || esi == b || esi == c, row);
    }
    counts(rt, keeping, 332, missing.saturating_mul(3), row);
    same(rt, &keeping.ready(), &[2].as_slice(), row);
}

/// Tries one order, whose row is its three digits behind a 1.
fn solves(rt: &impl Abort, alloc: Global, a: u8, b: u8, c: u8) -> Result<(), Fail>
    requires a { a < 6 }
    requires b { b < 6 }
    requires c { c < 6 }
{
    let row = 1_000 + 100 * u32::from(a) + 10 * u32::from(b) + u32::from(c);
    let mut keeping = Keeping::start(alloc, 4096)?;
    is_solved(rt, &mut keeping, a, b, c, row);
    Ok(())
}

#[test]
fn every_order_of_any_three_of_six_symbols(rt: HostRuntime) -> Result<(), Fail> {
    for a in 0..6u8 {
        for b in 0..6u8 {
            for c in 0..6u8 {
                if a != b && b != c && a != c {
                    solves(&rt, rt.alloc(), a, b, c)?;
                }
            }
        }
    }
    Ok(())
}

#[test]
fn a_differing_byte_before_the_block_is_solved(rt: HostRuntime) -> Result<(), Fail> {
    let of = one_block();
    let mut keeping = Keeping::start(rt.alloc(), 4096)?;
    for esi in 0..2u8 {
        let symbol = symbol_of(esi);
        keeps(&rt, &mut keeping, &of, 0, esi, &symbol, NEW, 6);
        each_byte_counts(&rt, &mut keeping, &of, 0, esi, symbol, 7);
    }
    Ok(())
}

#[test]
fn a_differing_byte_after_the_block_is_solved(rt: HostRuntime) -> Result<(), Fail> {
    let of = one_block();
    let mut keeping = Keeping::start(rt.alloc(), 4096)?;
    for (esi, kept) in [(5u8, NEW), (1, NEW), (3, READY)] {
        keeps(&rt, &mut keeping, &of, 0, esi, &symbol_of(esi), kept, 8);
    }
    for esi in [5u8, 1, 3] {
        each_byte_counts(&rt, &mut keeping, &of, 0, esi, symbol_of(esi), 9);
    }
    Ok(())
}

/// The rows of block 1 of two are alike, so that each of its symbols is this one.
const ALIKE: [u8; 4] = [7, 0, 9, 0];

/// Keeps three symbols of each of two blocks.
fn keeps_two_blocks(rt: &impl Abort, keeping: &mut Keeping, of: &Sizes) {
    for (sbn, esi, kept) in [
        (1u32, 4u8, NEW),
        (1, 0, NEW),
        (1, 3, SOLVED),
        (0, 5, NEW),
        (0, 1, NEW),
        (0, 3, READY),
    ] {
        let symbol = if sbn == 0 { symbol_of(esi) } else { ALIKE };
        keeps(rt, keeping, of, sbn, esi, &symbol, kept, 10);
    }
}

#[test]
fn symbols_of_two_blocks_once_the_object_is_ready(rt: HostRuntime) -> Result<(), Fail> {
    let of = Sizes::new(2, 23, 4, 3, 6);
    let mut keeping = Keeping::start(rt.alloc(), 4096)?;
    keeps_two_blocks(&rt, &mut keeping, &of);
    for esi in [5u8, 1, 3] {
        each_byte_counts(&rt, &mut keeping, &of, 0, esi, symbol_of(esi), 11);
    }
    for esi in [4u8, 0, 3] {
        each_byte_counts(&rt, &mut keeping, &of, 1, esi, ALIKE, 12);
    }
    keeps(&rt, &mut keeping, &of, 0, 0, &[1; 4], Kept::Spare, 13);
    keeps(&rt, &mut keeping, &of, 1, 5, &[1; 4], Kept::Spare, 14);
    holds(&rt, &keeping, 2, 0, 3, 15);
    holds(&rt, &keeping, 2, 1, 3, 16);
    holds(&rt, &keeping, 2, 2, 0, 17);
    Ok(())
}

/// The last symbol of an object of 29 bytes, with its fill.
const FILLED: &[u8; 25] = b"\0\0\x001\0\0\0\0\0\0\0\0\0\0\0\0\0\0\0\0\0\0\0\0\0";

/// The object: 25 times 9, and the four bytes of the last symbol.
const TWENTY_NINE: &[u8] = b"\t\t\t\t\t\t\t\t\t\t\t\t\t\t\t\t\t\t\t\t\t\t\t\t\t\0\0\x001";

#[test]
fn the_last_symbol_cut_and_whole(rt: HostRuntime) -> Result<(), Fail> {
    let of = Sizes::new(2, 29, 25, 2, 3);
    let mut keeping = Keeping::start(rt.alloc(), 4096)?;
    let differs = Kept::SymbolDiffers { at: 3 };
    keeps(&rt, &mut keeping, &of, 0, 1, b"\0\0\x001", NEW, 18);
    keeps(&rt, &mut keeping, &of, 0, 1, FILLED, Kept::Repeat, 19);
    keeps(&rt, &mut keeping, &of, 0, 1, b"\0\0\x002", differs, 20);
    keeps(&rt, &mut keeping, &of, 0, 0, &[9; 25], READY, 21);
    is_whole(&rt, &keeping, 2, Some(TWENTY_NINE), 22);
    same(&rt, &keeping.steps(), &0, 23);
    Ok(())
}
