//! What a receiver makes of datagrams.

use super::objects::{EMPTY_INSTANCE, bent};
use super::same::same;
use super::trial::{Trial, WHOLE, has, packet, settles, stands, takes};
use alc_packet::Refusal;
use oti_blocks::Oti;
use receiver_core::{Kept, Standing, Taken};
use std::process::Abort;
use std::test::Fail;

/// A byte that is changed, by its offset, and what is wanted of the datagram then.
type Case = (usize, u8, Taken);

/// Takes these bytes with one of them changed.
fn takes_bent(rt: &impl Abort, trial: &mut Trial, bytes: &[u8], case: &Case, row: u32) {
    let made = bent(trial.alloc, bytes, case.0, case.1);
    takes(rt, trial, &made, case.2, row);
}

fn takes_each(rt: &impl Abort, trial: &mut Trial, bytes: &[u8], cases: &[Case], first: u32) {
    let mut row = first;
    for case in cases {
        takes_bent(rt, trial, bytes, case, row);
        row = row.saturating_add(1);
    }
}

/// Takes the datagram of the empty instance as it is.
fn takes_empty(rt: &impl Abort, trial: &mut Trial, kept: Kept, row: u32) {
    same(
        rt,
        &trial.take(&EMPTY_INSTANCE),
        &Some(packet(1, kept)),
        row,
    );
}

/// Installs the empty instance.
fn installs_empty(rt: &impl Abort, trial: &mut Trial, row: u32) {
    takes_empty(rt, trial, WHOLE, row);
    settles(rt, trial, Some(1), row);
    has(rt, trial, Some((1, 1)), row);
}

/// Nothing of object 1 is held, nor anything else.
fn holds_nothing(rt: &impl Abort, trial: &Trial, row: u32) {
    stands(rt, trial, 1, Standing::Unknown, row);
    same(rt, &trial.count(), &0, row);
}

#[test]
fn datagrams_that_are_no_packets_of_the_session(rt: HostRuntime) -> Result<(), Fail> {
    let mut trial = Trial::start(rt.alloc(), 4096)?;
    let cases = [
        (2, 3, Taken::Refused(Refusal::LengthField)),
        (3, 6, Taken::Refused(Refusal::OtherScheme { detail: 6 })),
        (11, 2, Taken::Elsewhere { tsi: 2 }),
    ];
    takes_each(&rt, &mut trial, &EMPTY_INSTANCE, &cases, 1);
    settles(&rt, &mut trial, None, 4);
    holds_nothing(&rt, &trial, 5);
    Ok(())
}

#[test]
fn an_instance_of_one_symbol(rt: HostRuntime) -> Result<(), Fail> {
    let mut trial = Trial::start(rt.alloc(), 4096)?;
    installs_empty(&rt, &mut trial, 6);
    stands(&rt, &trial, 1, Standing::Descriptor { number: 1 }, 7);
    stands(&rt, &trial, 2, Standing::Unknown, 8);
    same(&rt, &trial.count(), &348, 9);
    Ok(())
}

#[test]
fn packets_that_differ(rt: HostRuntime) -> Result<(), Fail> {
    let mut trial = Trial::start(rt.alloc(), 4096)?;
    installs_empty(&rt, &mut trial, 10);
    let differs = (59, 1, packet(1, Kept::SymbolDiffers { at: 27 }));
    takes_bent(&rt, &mut trial, &EMPTY_INSTANCE, &differs, 11);
    takes_empty(&rt, &mut trial, Kept::Repeat, 12);
    settles(&rt, &mut trial, None, 13);
    has(&rt, &trial, Some((1, 1)), 14);
    Ok(())
}

/// Takes the empty instance once more under other transmission information than this.
fn takes_other(rt: &impl Abort, trial: &mut Trial, held: Option<Oti>, row: u32) {
    let made = bent(trial.alloc, &EMPTY_INSTANCE, 27, 2);
    let wanted = held.map(|oti| packet(1, Kept::OtiDiffers(oti)));
    same(rt, &wanted.is_some(), &true, row);
    same(rt, &trial.take_made(&made), &wanted, row);
}

#[test]
fn other_transmission_information(rt: HostRuntime) -> Result<(), Fail> {
    let mut trial = Trial::start(rt.alloc(), 4096)?;
    installs_empty(&rt, &mut trial, 15);
    takes_other(&rt, &mut trial, Oti::new(28, 28, 1, 1).ok(), 16);
    settles(&rt, &mut trial, None, 17);
    has(&rt, &trial, Some((1, 1)), 18);
    same(&rt, &trial.drops(), &0, 19);
    Ok(())
}

/// The header of the empty instance's datagram alone is a control, which opens no object.
#[test]
fn controls(rt: HostRuntime) -> Result<(), Fail> {
    let mut trial = Trial::start(rt.alloc(), 4096)?;
    let cases = [
        (1, 0xA0, Taken::Control { close: false }),
        (1, 0xA2, Taken::Control { close: true }),
        (11, 2, Taken::Elsewhere { tsi: 2 }),
    ];
    takes_each(&rt, &mut trial, &EMPTY_INSTANCE[..28], &cases, 20);
    holds_nothing(&rt, &trial, 23);
    Ok(())
}

/// The empty instance behind a header with the widest fields, and EXT_NOP, EXT_TIME and an unknown extension in front of
/// the EXT_FTI.
const WIDE: &[u8; 100] =
    b"\x1C\xF0\x11\x05\t\t\t\t\t\t\t\t\t\t\t\t\t\t\t\t\0\0\0\0\0\x01\0\0\0\0\0\0\0\0\0\0\0\0\0\x01\
\0\x01\0\0\x02\x02\x07\x07\x07\x07\x07\x07\xC8\x07\x07\x07\
\x40\x03\0\0\0\0\0\x1C\0\x1C\x01\x01\0\0\0\0\x03\0\x9A\xFA\0\0\0\x19Fcast-CID-ID: 1\r\n\0\0\0";

/// The second byte of its EXT_NOP is its length in words.
#[test]
fn a_wide_header(rt: HostRuntime) -> Result<(), Fail> {
    let mut trial = Trial::start(rt.alloc(), 4096)?;
    let refused = Taken::Refused(Refusal::ExtensionZero { detail: 40 });
    let cases = [(41, 0, refused), (41, 1, packet(1, WHOLE))];
    takes_each(&rt, &mut trial, WIDE, &cases, 24);
    settles(&rt, &mut trial, Some(1), 26);
    Ok(())
}
