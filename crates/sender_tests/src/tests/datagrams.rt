//! The datagrams of small sessions, read back.
ghost use Rattle.std.specs.Prelude.{◌≤◌};

use super::same::same;
use super::sessions::{instance, object, session};
use alc_packet::{Datagram, read};
use sender_plan::{SentInstance, Session};
use sender_schedule::Schedule;
use std::alloc::Global;
use std::process::Abort;
use std::test::Fail;

/// A file under the location `a`, with the body `hi`.
const HI_FILE_OBJECT: &[u8; 50] =
    b"\x02\x00\xEE\xDF\x00\x00\x00\x30Content-Location: a\r\nContent-Length: 2\r\nhi";

/// A descriptor of number 1 that lists 1.
const LIST_ONE_DESCRIPTOR: &[u8; 29] =
    b"\x03\x00\x69\xFA\x00\x00\x00\x19Fcast-CID-ID: 1\r\n\x00\x00\x001";

/// The header of each datagram of the descriptor, up to its SBN.
const DESCRIPTOR_HEADER: &[u8; 28] =
    b"\x10\xA0\x07\x05\x00\x00\x00\x00\x00\x00\x00\x01\x00\x00\x00\x02\x40\x03\x00\x00\x00\x00\x00\x1D\x00\x19\x02\x03";

/// The session of the file and the descriptor that lists it, in symbols of 25 bytes. The third object is another
/// descriptor.
fn hi_session(alloc: Global, instances: Vec<SentInstance>, cycles: u16) -> Result<Session, Fail>
    requires { 1 ≤ cycles }
{
    let file = object(alloc, 1, HI_FILE_OBJECT, 25, 2, 3)?;
    let descriptor = object(alloc, 2, LIST_ONE_DESCRIPTOR, 25, 2, 3)?;
    let other = object(alloc, 3, LIST_ONE_DESCRIPTOR, 25, 2, 3)?;
    session(alloc, file, descriptor, other, instances, cycles)
}

/// The session of one object whose bytes count up.
fn counting_session(
    alloc: Global,
    length: u16,
    symbol: u16,
    max_block: u8,
    max_n: u8,
) -> Result<Session, Fail>
    requires { symbol ≤ 65475 }
{
    let mut bytes = Vec::new(alloc);
    for i in 0..length {
        bytes.push((i % 251) as u8)?;
    }
    let one = object(alloc, 1, bytes.as_slice(), symbol, max_block, max_n)?;
    let two = object(alloc, 2, LIST_ONE_DESCRIPTOR, 25, 2, 3)?;
    let three = object(alloc, 3, LIST_ONE_DESCRIPTOR, 25, 2, 3)?;
    let mut instances = Vec::new(alloc);
    instances.push(instance(alloc, 1, &[])?)?;
    session(alloc, one, two, three, instances, 1)
}

/// The object, the block and the number of the symbol that a datagram has.
fn symbol_of(datagram: &[u8]) -> Option<(u128, u32, u8)> {
    match read(datagram) {
        Ok(Datagram::Symbol(packet)) => Some((packet.toi, packet.sbn, packet.esi)),
        _ => None,
    }
}

/// Asserts the next datagram by its symbol, how long it is, and what follows its SBN and ESI.
fn check_next(
    rt: &impl Abort,
    schedule: &mut Schedule<'_>,
    datagram: &mut Vec<u8>,
    symbol: (u128, u32, u8),
    length: usize,
    start: &[u8],
    row: u32,
) -> Result<(), Fail> {
    same(rt, &schedule.next(datagram)?, &true, row);
    same(rt, &symbol_of(datagram.as_slice()), &Some(symbol), row);
    same(rt, &datagram.len(), &length, row);
    let rest = datagram.get(32..).ok_or("a symbol")?;
    same(rt, &rest.starts_with(start), &true, row);
    Ok(())
}

/// Asserts that nothing is left.
fn check_end(
    rt: &impl Abort,
    schedule: &mut Schedule<'_>,
    datagram: &mut Vec<u8>,
    row: u32,
) -> Result<(), Fail> {
    same(rt, &schedule.next(datagram)?, &false, row);
    same(rt, &datagram.is_empty(), &true, row);
    Ok(())
}

/// Asserts the three datagrams of an object of one block, by what their symbols start with.
fn check_three(
    rt: &impl Abort,
    schedule: &mut Schedule<'_>,
    datagram: &mut Vec<u8>,
    toi: u128,
    starts: &[&[u8]; 3],
    row: u32,
) -> Result<(), Fail> {
    let mut esi = 0u8;
    for start in starts {
        check_next(rt, schedule, datagram, (toi, 0, esi), 57, start, row)?;
        esi = esi.wrapping_add(1);
    }
    Ok(())
}

/// The instance of each descriptor, which lists the file or nothing.
fn instances_of(
    alloc: Global,
    descriptors: &[u128],
    listed: &[u128],
) -> Result<Vec<SentInstance>, Fail> {
    let mut instances = Vec::new(alloc);
    for toi in descriptors {
        instances.push(instance(alloc, *toi, listed)?)?;
    }
    Ok(instances)
}

#[test]
fn six_datagrams_of_a_file_and_its_descriptor(rt: HostRuntime) -> Result<(), Fail> {
    let alloc = rt.alloc();
    let session = hi_session(alloc, instances_of(alloc, &[2], &[1])?, 1)?;
    let mut schedule = Schedule::new(&session);
    let mut datagram = Vec::new(alloc);
    let descriptor: [&[u8]; 3] = [
        b"\x03\x00\x69\xFA\x00\x00\x00\x19Fcast-CID-ID: 1\r\n",
        b"\x00\x00\x001\x00\x00\x00\x00",
        b"\x06\x00\xD2\xBA",
    ];
    let file: [&[u8]; 3] = [
        b"\x02\x00\xEE\xDF\x00\x00\x00\x30Content-Location",
        b" a\r\nContent-Length: 2\r\nhi",
        b"\x64\xA3",
    ];
    check_three(&rt, &mut schedule, &mut datagram, 2, &descriptor, 1)?;
    check_three(&rt, &mut schedule, &mut datagram, 1, &file, 2)?;
    check_end(&rt, &mut schedule, &mut datagram, 3)?;

    // The first datagram in full.
    let mut again = Schedule::new(&session);
    let first = &LIST_ONE_DESCRIPTOR[..25];
    check_next(&rt, &mut again, &mut datagram, (2, 0, 0), 57, first, 4)?;
    same(&rt, &datagram.starts_with(DESCRIPTOR_HEADER), &true, 5);
    same(
        &rt,
        &datagram.get(28..32),
        &Some([0, 0, 0, 0].as_slice()),
        6,
    );
    Ok(())
}

/// Nothing is asked of the symbols.
const ANY: [&[u8]; 3] = [&[], &[], &[]];

#[test]
fn instances_without_files_and_sessions_without_instances(rt: HostRuntime) -> Result<(), Fail> {
    let alloc = rt.alloc();
    let mut datagram = Vec::new(alloc);
    let session = hi_session(alloc, instances_of(alloc, &[2], &[])?, 1)?;
    let mut schedule = Schedule::new(&session);
    check_three(&rt, &mut schedule, &mut datagram, 2, &ANY, 10)?;
    check_end(&rt, &mut schedule, &mut datagram, 11)?;
    check_end(&rt, &mut schedule, &mut datagram, 12)?;

    let session = hi_session(alloc, Vec::new(alloc), 3)?;
    check_end(&rt, &mut Schedule::new(&session), &mut datagram, 13)
}

#[test]
fn two_instances_share_a_file_and_are_sent_twice(rt: HostRuntime) -> Result<(), Fail> {
    let alloc = rt.alloc();
    let session = hi_session(alloc, instances_of(alloc, &[2, 3], &[1])?, 2)?;
    let mut schedule = Schedule::new(&session);
    let mut datagram = Vec::new(alloc);
    for (row, toi) in [
        (20, 2u128),
        (21, 1),
        (22, 2),
        (23, 1),
        (24, 3),
        (25, 1),
        (26, 3),
        (27, 1),
    ] {
        check_three(&rt, &mut schedule, &mut datagram, toi, &ANY, row)?;
    }
    check_end(&rt, &mut schedule, &mut datagram, 28)
}

#[test]
fn a_block_of_255_source_symbols(rt: HostRuntime) -> Result<(), Fail> {
    let session = counting_session(rt.alloc(), 255, 1, 255, 255)?;
    let mut schedule = Schedule::new(&session);
    let mut datagram = Vec::new(rt.alloc());
    for esi in 0..255u8 {
        let row = 100 + u32::from(esi);
        let byte = [esi % 251];
        check_next(
            &rt,
            &mut schedule,
            &mut datagram,
            (1, 0, esi),
            33,
            &byte,
            row,
        )?;
    }
    check_end(&rt, &mut schedule, &mut datagram, 30)
}

/// Asserts one symbol of each of these blocks.
fn check_round(
    rt: &impl Abort,
    schedule: &mut Schedule<'_>,
    datagram: &mut Vec<u8>,
    esi: u8,
    blocks: u32,
    row: u32,
) -> Result<(), Fail> {
    for sbn in 0..blocks {
        check_next(rt, schedule, datagram, (1, sbn, esi), 1032, &[], row)?;
    }
    Ok(())
}

/// Ten symbols in blocks of 4, 3 and 3, which have 6, 4 and 4 encoding symbols.
#[test]
fn larger_blocks_end_later(rt: HostRuntime) -> Result<(), Fail> {
    let session = counting_session(rt.alloc(), 10_000, 1000, 4, 6)?;
    let mut schedule = Schedule::new(&session);
    let mut datagram = Vec::new(rt.alloc());
    for (row, esi, blocks) in [
        (40, 0u8, 3),
        (41, 1, 3),
        (42, 2, 3),
        (43, 3, 3),
        (44, 4, 1),
        (45, 5, 1),
    ] {
        check_round(&rt, &mut schedule, &mut datagram, esi, blocks, row)?;
    }
    check_end(&rt, &mut schedule, &mut datagram, 46)
}
