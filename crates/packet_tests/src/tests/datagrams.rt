//! Datagrams that are read: the values of their fields.

use super::packets::{EMPTY_INSTANCE_DATAGRAM, changed};
use super::same::same;
use alc_packet::{Datagram, Packet, read};
use std::alloc::Global;
use std::process::Abort;
use std::test::Fail;

/// The first 40 bytes of a header with the widest fields: CCI is any bytes.
const WIDE_FIELDS: [u8; 40] = [
    0x1C, 0xF0, 0x11, 0x05, // version 1, C = 3, S = 1, O = 3, H = 1, 17 words, codepoint 5
    0x01, 0x02, 0x03, 0x04, 0x05, 0x06, 0x07, 0x08, 0x09, 0x0A, 0x0B, 0x0C, 0x0D, 0x0E, 0x0F, 0x10, // CCI
    0x00, 0x00, 0x00, 0x01, 0x02, 0x03, // TSI
    0xFF, 0xFE, 0xFD, 0xFC, 0xFB, 0xFA, 0xF9, 0xF8, 0xF7, 0xF6, 0xF5, 0xF4, 0xF3, 0xF2, // TOI
];

/// Extensions that are passed over; the contents are any bytes.
const OTHER_EXTENSIONS: [u8; 16] = [
    0x00, 0x01, 0x00, 0x00, // EXT_NOP
    0x02, 0x02, 0x21, 0x22, 0x23, 0x24, 0x25, 0x26, // EXT_TIME
    0xC8, 0x31, 0x32, 0x33, // an unknown extension of one word
];

/// The packet of a datagram.
fn packet_of(bytes: &[u8]) -> Result<Packet<'_>, Fail> {
    match read(bytes) {
        Ok(Datagram::Symbol(packet)) => Ok(packet),
        _ => Err(Fail::from("a packet")),
    }
}

/// Asserts the session, the object, the number and the bytes of a packet's symbol.
fn check_packet(
    rt: &impl Abort,
    packet: &Packet<'_>,
    tsi: u64,
    toi: u128,
    esi: u8,
    symbol: &[u8],
    row: u32,
) {
    same(rt, &packet.tsi, &tsi, row);
    same(rt, &packet.toi, &toi, row);
    same(rt, &packet.sbn, &0, row);
    same(rt, &packet.esi, &esi, row);
    same(rt, &packet.symbol, &symbol, row);
}

#[test]
fn a_packet_has_the_values_of_its_fields(rt: HostRuntime) -> Result<(), Fail> {
    let packet = packet_of(&EMPTY_INSTANCE_DATAGRAM)?;
    check_packet(&rt, &packet, 1, 1, 0, &EMPTY_INSTANCE_DATAGRAM[32..], 1);
    same(&rt, &packet.oti.length(), &28, 2);
    same(&rt, &packet.oti.symbol(), &28, 3);
    same(&rt, &packet.oti.max_block(), &1, 4);
    same(&rt, &packet.oti.max_n(), &1, 5);
    same(&rt, &packet.close, &false, 6);
    // The symbol of one byte of an object of eight, in a session and an object of 16 bits each.
    let bytes = [
        0x10, 0x10, 0x06, 0x05, 0, 0, 0, 0, 0, 7, 0, 9, // H = 1 alone, six words; CCI, TSI, TOI
        0x40, 3, 0, 0, 0, 0, 0, 8, 0, 1, 8, 8, // EXT_FTI
        0, 0, 0, 5, 0x2A, // SBN, ESI and the symbol
    ];
    check_packet(&rt, &packet_of(&bytes)?, 7, 9, 5, &[0x2A], 7);
    Ok(())
}

/// The session of a control, and whether it closes.
fn control(bytes: &[u8]) -> Option<(u64, bool)> {
    match read(bytes) {
        Ok(Datagram::Control { tsi, close }) => Some((tsi, close)),
        _ => None,
    }
}

/// A control may have any codepoint and no TOI.
#[test]
fn the_flag_a_closes(rt: HostRuntime) -> Result<(), Fail> {
    let flags: [(u32, u8, bool); 4] = [
        (10, 0xA0, false),
        (11, 0xA1, false),
        (12, 0xA2, true),
        (13, 0xA3, true),
    ];
    for (row, byte, closes) in flags {
        let bytes = changed(&[(1, byte)]);
        same(&rt, &packet_of(&bytes)?.close, &closes, row);
        let header = [0x10, byte, 4, 9, 0, 0, 0, 0, 0, 0, 0, 7, 0, 0, 0, 1];
        same(&rt, &control(&header), &Some((7, closes)), row);
    }
    let least = control(&[0x10, 0x02, 2, 0, 0, 0, 0, 0]);
    same(&rt, &least, &Some((0, true)), 14);
    Ok(())
}

/// Asserts the packet of the widest fields, these pieces, and the payload of the worked datagram.
fn check_wide(
    rt: &impl Abort,
    alloc: Global,
    first: &[u8],
    second: &[u8],
    row: u32,
) -> Result<(), Fail> {
    let payload = &EMPTY_INSTANCE_DATAGRAM[28..];
    let mut bytes = Vec::from_slice(alloc, &WIDE_FIELDS)?;
    bytes.extend_from_slice(first)?;
    bytes.extend_from_slice(second)?;
    bytes.extend_from_slice(payload)?;
    let packet = packet_of(bytes.as_slice())?;
    let toi = 0xFFFE_FDFC_FBFA_F9F8_F7F6_F5F4_F3F2;
    check_packet(rt, &packet, 0x01_0203, toi, 0, &payload[4..], row);
    same(rt, &packet.oti.length(), &28, row);
    Ok(())
}

#[test]
fn other_extensions_are_passed_over(rt: HostRuntime) -> Result<(), Fail> {
    let fti = &EMPTY_INSTANCE_DATAGRAM[16..28];
    check_wide(&rt, rt.alloc(), &OTHER_EXTENSIONS, fti, 20)?;
    check_wide(&rt, rt.alloc(), fti, &OTHER_EXTENSIONS, 21)
}
