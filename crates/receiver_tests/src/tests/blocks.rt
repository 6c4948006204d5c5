//! What a receiver makes of the symbols of a block.

use super::objects::{Block, datagram};
use super::same::same;
use super::trial::{PART, Trial, WHOLE, settles, stands, symbol_of, takes};
use alc_packet::Refusal;
use receiver_core::{Kept, Standing, Taken};
use std::process::Abort;
use std::test::Fail;

/// Takes symbol `esi` of an object of one block, of which this is wanted.
fn takes_so(
    rt: &impl Abort,
    trial: &mut Trial,
    block: &Block,
    esi: u8,
    bytes: &[u8],
    wanted: Taken,
    row: u32,
) {
    let made = datagram(trial.alloc, block, 0, esi, bytes);
    takes(rt, trial, &made, wanted, row);
}

/// Takes symbol `esi` of an object of one block, which is kept so.
fn takes_symbol(
    rt: &impl Abort,
    trial: &mut Trial,
    block: &Block,
    esi: u8,
    bytes: &[u8],
    kept: Kept,
    row: u32,
) {
    let wanted = symbol_of(block.toi, esi, kept);
    takes_so(rt, trial, block, esi, bytes, wanted, row);
}

#[test]
fn repeats(rt: HostRuntime) -> Result<(), Fail> {
    let mut trial = Trial::start(rt.alloc(), 4096)?;
    let block = Block::new(1, 8, 4, 2, 2);
    takes_symbol(&rt, &mut trial, &block, 0, b"seve", PART, 1);
    for _ in 0..4 {
        takes_symbol(&rt, &mut trial, &block, 0, b"seve", Kept::Repeat, 2);
    }
    same(&rt, &trial.held(1, 0), &1, 3);
    settles(&rt, &mut trial, None, 4);
    stands(&rt, &trial, 1, Standing::Partial, 5);
    Ok(())
}

const SEVENS: [u8; 1000] = [7; 1000];

/// Takes the symbols of an object of eight of 1,000 bytes, which are all alike. Three are within the budget.
fn takes_thousands(rt: &impl Abort, trial: &mut Trial, over: Kept) {
    let block = Block::new(1, 8000, 1000, 8, 8);
    for esi in 0..8u8 {
        let wanted = if esi < 3 { PART } else { over };
        takes_symbol(rt, trial, &block, esi, &SEVENS, wanted, 6);
    }
}

/// In an object 256 are counted for it, 64 for its block, and the length of each symbol.
#[test]
fn over_the_budget(rt: HostRuntime) -> Result<(), Fail> {
    let mut trial = Trial::start(rt.alloc(), 4096)?;
    let over = Kept::OverBudget {
        count: 3320,
        charge: 1000,
    };
    takes_thousands(&rt, &mut trial, over);
    same(&rt, &trial.drops(), &5, 7);
    same(&rt, &trial.count(), &3320, 8);
    stands(&rt, &trial, 1, Standing::Partial, 9);
    Ok(())
}

/// The symbols of an object of one source symbol and two repair symbols are all alike. A spare one isn't counted as
/// dropped.
#[test]
fn a_spare_symbol(rt: HostRuntime) -> Result<(), Fail> {
    let mut trial = Trial::start(rt.alloc(), 4096)?;
    let block = Block::new(1, 8, 8, 1, 3);
    for (esi, kept, row) in [
        (2u8, WHOLE, 10),
        (2, Kept::Repeat, 11),
        (1, Kept::Spare, 12),
        (0, Kept::Spare, 13),
    ] {
        takes_symbol(&rt, &mut trial, &block, esi, b"sevenths", kept, row);
    }
    same(&rt, &trial.drops(), &0, 14);
    stands(&rt, &trial, 1, Standing::Whole, 15);
    Ok(())
}

const FILLED: &[u8; 25] = b"\0\0\x001\0\0\0\0\0\0\0\0\0\0\0\0\0\0\0\0\0\0\0\0\0";

const SPOILED: &[u8; 25] = b"\0\0\x001\0\x01\0\0\0\0\0\0\0\0\0\0\0\0\0\0\0\0\0\0\0";

/// What is taken of the last symbol of an object of 29 bytes: cut where the object ends, filled with zeros, and filled
/// with something else.
#[test]
fn the_last_symbol(rt: HostRuntime) -> Result<(), Fail> {
    let mut trial = Trial::start(rt.alloc(), 4096)?;
    let block = Block::new(2, 29, 25, 2, 3);
    let refused = Taken::Refused(Refusal::FillNotZero { detail: 5 });
    takes_symbol(&rt, &mut trial, &block, 1, &FILLED[..4], PART, 16);
    takes_symbol(&rt, &mut trial, &block, 1, FILLED, Kept::Repeat, 17);
    takes_so(&rt, &mut trial, &block, 1, SPOILED, refused, 18);
    Ok(())
}
