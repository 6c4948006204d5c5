//! Datagrams with one encoding symbol.

use crate::logs::EMPTY_INSTANCE_DATAGRAM;
use std::alloc::{AllocError, Global};

/// How an object is coded: its identifier, its length, the length of a symbol, and how many source and encoding
/// symbols a block has at most.
#[derive(Clone, Copy)]
pub struct Coding {
    pub toi: u32,
    pub length: u32,
    pub symbol: u16,
    pub max_block: u8,
    pub max_n: u8,
}

/// A packet of session 1 with this symbol of block 0.
pub fn packet(
    alloc: Global,
    coding: Coding,
    esi: u8,
    symbol: &[u8],
) -> Result<Vec<u8>, AllocError> {
    // LCT header: version 1, S = 1, O = 1, seven words, codepoint 5; congestion control information; TSI
    let header = [0x10, 0xA0, 0x07, 0x05, 0, 0, 0, 0, 0, 0, 0, 1];
    let mut datagram = Vec::from_slice(alloc, &header)?;
    datagram.extend_from_slice(&coding.toi.to_be_bytes())?;
    // EXT_FTI, then the FEC Payload ID
    datagram.extend_from_slice(&[0x40, 0x03, 0, 0])?;
    datagram.extend_from_slice(&coding.length.to_be_bytes())?;
    datagram.extend_from_slice(&coding.symbol.to_be_bytes())?;
    datagram.extend_from_slice(&[coding.max_block, coding.max_n, 0, 0, 0, esi])?;
    datagram.extend_from_slice(symbol)?;
    Ok(datagram)
}

/// The packet of an object that is one symbol.
pub fn whole(alloc: Global, toi: u32, object: &[u8]) -> Result<Vec<u8>, AllocError> {
    let length = u16::try_from(object.len()).unwrap_or(u16::MAX);
    let coding = Coding {
        toi,
        length: u32::from(length),
        symbol: length,
        max_block: 1,
        max_n: 1,
    };
    packet(alloc, coding, 0, object)
}

/// So many zeros.
pub fn zeros(alloc: Global, size: usize) -> Result<Vec<u8>, AllocError> {
    vec![in alloc; 0u8; size]
}

/// The first packets, so many, of an object of one block: its eight source symbols have this length, and are zeros.
pub fn zero_packets(alloc: Global, symbol: u16, count: u8) -> Result<Vec<Vec<u8>>, AllocError> {
    let coding = Coding {
        toi: 1,
        length: u32::from(symbol) * 8,
        symbol,
        max_block: 8,
        max_n: 8,
    };
    let zeros = zeros(alloc, usize::from(symbol))?;
    let mut packets = Vec::new(alloc);
    for esi in 0..count {
        packets.push(packet(alloc, coding, esi, zeros.as_slice())?)?;
    }
    Ok(packets)
}

/// The datagram of the empty instance with another byte at this place.
pub fn with_byte(alloc: Global, at: usize, byte: u8) -> Result<Vec<u8>, AllocError> {
    bent(alloc, &EMPTY_INSTANCE_DATAGRAM, at, byte)
}

/// The bytes with another one at this place.
pub fn bent(alloc: Global, bytes: &[u8], at: usize, byte: u8) -> Result<Vec<u8>, AllocError> {
    let mut bent = Vec::from_slice(alloc, bytes)?;
    if let Some(old) = bent.as_mut_slice().get_mut(at) {
        *old = byte;
    }
    Ok(bent)
}
