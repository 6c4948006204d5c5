//! Packets that are made and written.

use super::packets::EMPTY_INSTANCE_DATAGRAM;
use super::same::same;
use alc_packet::{Datagram, Packet, Refusal, read, write};
use oti_blocks::Oti;
use std::alloc::Global;
use std::process::Abort;
use std::test::Fail;

/// Asserts what refuses the first block's symbol of this number with so many bytes.
fn check_made(
    rt: &impl Abort,
    oti: Oti,
    at: (u32, u8),
    symbol: &[u8],
    refusal: Option<Refusal>,
    row: u32,
) {
    let made = Packet::make(1, 2, oti, at.0, at.1, symbol, true);
    same(rt, &made.err(), &refusal, row);
}

#[test]
fn packets_are_made_of_right_values_alone(rt: HostRuntime) -> Result<(), Fail> {
    // 50 bytes in two symbols of 25 bytes, and a repair symbol.
    let oti = Oti::new(50, 25, 2, 3)?;
    let symbol = [9u8; 25];
    let packet = Packet::make(1, 2, oti, 0, 2, &symbol, true)?;
    same(&rt, &packet.toi, &2, 1);
    same(&rt, &packet.esi, &2, 2);
    same(&rt, &packet.symbol, &symbol.as_slice(), 3);
    same(&rt, &packet.close, &true, 4);

    let cut = Oti::new(40, 25, 2, 3)?;
    let cases: [(u32, Oti, (u32, u8), usize, Option<Refusal>); 6] = [
        (10, oti, (1, 0), 25, Some(Refusal::BlockOut { detail: 1 })),
        (11, oti, (0, 3), 25, Some(Refusal::SymbolOut { detail: 3 })),
        (
            12,
            oti,
            (0, 1),
            24,
            Some(Refusal::SymbolLength { detail: 24 }),
        ),
        (
            13,
            cut,
            (0, 0),
            15,
            Some(Refusal::SymbolLength { detail: 15 }),
        ),
        (
            14,
            cut,
            (0, 1),
            25,
            Some(Refusal::FillNotZero { detail: 15 }),
        ),
        (15, cut, (0, 1), 15, None),
    ];
    for (row, oti, at, length, refusal) in cases {
        check_made(&rt, oti, at, &symbol[..length.min(25)], refusal, row);
    }
    Ok(())
}

#[test]
fn the_empty_instance_is_written(rt: HostRuntime) -> Result<(), Fail> {
    let Ok(Datagram::Symbol(packet)) = read(&EMPTY_INSTANCE_DATAGRAM) else {
        return Err(Fail::from("the empty instance is read"));
    };
    let written = write(rt.alloc(), &packet)?;
    let wanted = EMPTY_INSTANCE_DATAGRAM.as_slice();
    same(&rt, &written.as_slice(), &wanted, 20);
    Ok(())
}

/// A packet of this session and object with the last symbol of three bytes, written.
fn written(alloc: Global, tsi: u64, toi: u128) -> Result<Vec<u8>, Fail> {
    if tsi >= 1 << 48 || toi >= 1 << 112 {
        return Err(Fail::from("numbers that fit"));
    }
    let oti = Oti::new(11, 8, 2, 2)?;
    let packet = Packet::make(tsi, toi, oti, 0, 1, &[1, 2, 3], true)?;
    Ok(write(alloc, &packet)?)
}

/// Asserts the head of a packet that is written, with the second byte and the words of its header, and the packet.
fn check_widths(
    rt: &impl Abort,
    alloc: Global,
    tsi: u64,
    toi: u128,
    flags: u8,
    words: u8,
    row: u32,
) -> Result<(), Fail> {
    let bytes = written(alloc, tsi, toi)?;
    let bytes = bytes.as_slice();
    let head = [0x10, flags, words, 5, 0, 0, 0, 0];
    same(rt, &bytes.get(..8), &Some(head.as_slice()), row);
    let Ok(Datagram::Symbol(packet)) = read(bytes) else {
        return Err(Fail::from("what is written is read"));
    };
    same(rt, &packet.tsi, &tsi, row);
    same(rt, &packet.toi, &toi, row);
    same(rt, &packet.symbol, &[1, 2, 3].as_slice(), row);
    same(rt, &packet.close, &true, row);
    Ok(())
}

/// The second byte has the flags S, O, H and A.
#[test]
fn numbers_are_written_in_the_least_widths(rt: HostRuntime) -> Result<(), Fail> {
    let widths: [(u32, u64, u128, u8, u8); 10] = [
        (30, 1, 1, 0xA2, 7),
        (31, (1 << 32) - 1, (1 << 32) - 1, 0xA2, 7),
        (32, 1, 1 << 32, 0xC2, 8),
        (33, 1, 1 << 64, 0xE2, 9),
        (34, 1, 1 << 96, 0xF2, 10),
        (35, 1 << 32, 1, 0xB2, 8),
        (36, 1 << 32, (1 << 48) - 1, 0xB2, 8),
        (37, 1 << 32, 1 << 48, 0xD2, 9),
        (38, 1 << 32, 1 << 80, 0xF2, 10),
        (39, (1 << 48) - 1, (1 << 112) - 1, 0xF2, 10),
    ];
    for (row, tsi, toi, flags, words) in widths {
        check_widths(&rt, rt.alloc(), tsi, toi, flags, words, row)?;
    }
    Ok(())
}
