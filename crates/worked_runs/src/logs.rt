//! Packet logs, and the datagrams in them.
ghost use Rattle.std.specs.Prelude.{◌<◌};

use std::alloc::{AllocError, Global};

/// The datagram of the descriptor of instance 1 with an empty list, as object 1 of session 1.
pub const EMPTY_INSTANCE_DATAGRAM: [u8; 60] = [
    // LCT header: version 1, S = 1, O = 1, seven words, codepoint 5
    0x10, 0xA0, 0x07, 0x05, //
    // congestion control information
    0x00, 0x00, 0x00, 0x00, //
    // TSI, TOI
    0x00, 0x00, 0x00, 0x01, 0x00, 0x00, 0x00, 0x01, //
    // EXT_FTI: 28 bytes of object, 28 bytes of symbol, one symbol in a block
    0x40, 0x03, 0x00, 0x00, 0x00, 0x00, 0x00, 0x1C, 0x00, 0x1C, 0x01, 0x01, //
    // FEC payload ID
    0x00, 0x00, 0x00, 0x00, //
    // compound object: version 0, G = 1, C = 1; checksum; header length 25
    0x03, 0x00, 0x9A, 0xFA, 0x00, 0x00, 0x00, 0x19, //
    // `Fcast-CID-ID: 1`, CR, LF
    0x46, 0x63, 0x61, 0x73, 0x74, 0x2D, 0x43, 0x49, 0x44, 0x2D, 0x49, 0x44, 0x3A, 0x20, 0x31, 0x0D,
    0x0A, //
    // padding
    0x00, 0x00, 0x00,
];

/// Where the last byte of the TOI stands in that datagram.
const TOI_AT: usize = 15;

/// Where the first byte of the object's checksum stands.
const CHECKSUM_AT: usize = 34;

/// Where the digit of the instance's number stands.
const DIGIT_AT: usize = 54;

/// The same as object `toi`, and for the instance of this number, from 1 to 9. The digit is the high
/// byte of its word, so the checksum's high byte falls as the number rises.
pub fn empty_instance(toi: u8, number: u8) -> [u8; 60]
    requires { number < 10 }
{
    let mut datagram = EMPTY_INSTANCE_DATAGRAM;
    datagram[TOI_AT] = toi;
    datagram[CHECKSUM_AT] = 0x9B - number;
    datagram[DIGIT_AT] = b'0' + number;
    datagram
}

/// A log of these datagrams.
pub fn log_of(alloc: Global, datagrams: &[&[u8]]) -> Result<Vec<u8>, AllocError> {
    let mut log = Vec::from_slice(alloc, b"FCASTLG1")?;
    for datagram in datagrams {
        push_item(&mut log, datagram)?;
    }
    Ok(log)
}

/// A log of these packets.
pub fn log_of_packets(alloc: Global, packets: &[Vec<u8>]) -> Result<Vec<u8>, AllocError> {
    let mut log = Vec::from_slice(alloc, b"FCASTLG1")?;
    for packet in packets {
        push_item(&mut log, packet.as_slice())?;
    }
    Ok(log)
}

/// A log of the empty instance's datagram, as often as this.
pub fn log_of_copies(alloc: Global, count: usize) -> Result<Vec<u8>, AllocError> {
    let mut log = Vec::from_slice(alloc, b"FCASTLG1")?;
    for _copy in 0..count {
        push_item(&mut log, &EMPTY_INSTANCE_DATAGRAM)?;
    }
    Ok(log)
}

fn push_item(log: &mut Vec<u8>, datagram: &[u8]) -> Result<(), AllocError> {
    let length = u16::try_from(datagram.len()).unwrap_or(u16::MAX);
    log.extend_from_slice(&length.to_be_bytes())?;
    log.extend_from_slice(datagram)
}
