//! Inputs that cost much where look-ups and copies aren't spared.

use super::objects::{Block, datagram, descriptor, file, whole_object};
use super::same::same;
use super::trial::{Trial, has, settles, stands};
use receiver_core::Standing;
use std::alloc::AllocError;
use std::process::Abort;
use std::test::Fail;

/// Takes a datagram that was made, after which a settling installs nothing.
fn settles_after(rt: &impl Abort, trial: &mut Trial, made: &Result<Vec<u8>, AllocError>, row: u32) {
    same(rt, &trial.take_made(made).is_some(), &true, row);
    settles(rt, trial, None, row);
}

/// Takes an object of one symbol.
fn takes_object(rt: &impl Abort, trial: &mut Trial, toi: u32, object: &[u8]) {
    let made = whole_object(trial.alloc, toi, object);
    settles_after(rt, trial, &made, toi);
}

/// Takes 10,000 objects: each fiftieth is the first one given, the others are the second.
fn takes_objects(rt: &impl Abort, trial: &mut Trial, waiting: &[u8], other: &[u8]) {
    for toi in 2..10_002u32 {
        let object = if toi % 50 == 0 { waiting } else { other };
        takes_object(rt, trial, toi, object);
    }
}

/// 10,000 objects with a settling after each: each fiftieth is a descriptor that waits for an object, the others are
/// files.
#[test]
fn many_small_objects(rt: HostRuntime) -> Result<(), Fail> {
    let waiting = descriptor(rt.alloc(), 1, "1")?;
    let other = file(rt.alloc())?;
    let mut trial = Trial::start(rt.alloc(), 1 << 30)?;
    takes_objects(&rt, &mut trial, waiting.as_slice(), other.as_slice());
    has(&rt, &trial, None, 20_001);
    stands(
        &rt,
        &trial,
        10_000,
        Standing::Descriptor { number: 1 },
        20_002,
    );
    Ok(())
}

/// Takes 254 symbols of one byte of this block.
fn takes_block(rt: &impl Abort, trial: &mut Trial, block: &Block, sbn: u8) {
    for esi in 0..254u8 {
        let made = datagram(trial.alloc, block, sbn, esi, &[esi]);
        settles_after(rt, trial, &made, u32::from(sbn).saturating_add(30_000));
    }
}

/// 5,080 packets of one object whose 20 blocks of 255 source symbols have one fewer each, with a settling after each.
#[test]
fn many_packets_of_one_object(rt: HostRuntime) -> Result<(), Fail> {
    let mut trial = Trial::start(rt.alloc(), 1 << 20)?;
    let block = Block::new(1, 5100, 1, 255, 255);
    for sbn in 0..20u8 {
        takes_block(&rt, &mut trial, &block, sbn);
    }
    stands(&rt, &trial, 1, Standing::Partial, 20_003);
    same(&rt, &trial.count(), &6616, 20_004);
    same(&rt, &trial.row_steps(), &0, 20_005);
    Ok(())
}
