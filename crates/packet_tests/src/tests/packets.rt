//! A worked datagram, changes of it, and what a datagram is taken for.

use alc_packet::{Datagram, read};

/// The descriptor of instance 1, which lists no file, as one datagram.
pub const EMPTY_INSTANCE_DATAGRAM: [u8; 60] = [
    0x10, 0xA0, 0x07, 0x05, // version 1, TSI and TOI of one word, seven words, codepoint 5
    0x00, 0x00, 0x00, 0x00, // CCI
    0x00, 0x00, 0x00, 0x01, // TSI
    0x00, 0x00, 0x00, 0x01, // TOI
    0x40, 0x03, // EXT_FTI
    0x00, 0x00, 0x00, 0x00, 0x00, 0x1C, // the object's length
    0x00, 0x1C, 0x01, 0x01, // the symbol's length, max_block and max_n
    0x00, 0x00, 0x00, 0x00, // SBN and ESI
    0x03, 0x00, 0x9A, 0xFA, 0x00, 0x00, 0x00, 0x19, // the object's header
    0x46, 0x63, 0x61, 0x73, 0x74, 0x2D, 0x43, 0x49, 0x44, // Fcast-CID
    0x2D, 0x49, 0x44, 0x3A, 0x20, 0x31, 0x0D, 0x0A, // -ID: 1
    0x00, 0x00, 0x00, // padding
];

/// What a datagram is taken for.
#[derive(Clone, Copy, PartialEq, Eq, Debug)]
pub enum Answer {
    /// A packet with a symbol of so many bytes.
    Packet(usize),
    Control,
    /// Its code and its detail.
    Refused(u8, u64),
}

/// What the bytes are taken for.
pub fn answer_to(bytes: &[u8]) -> Answer {
    match read(bytes) {
        Ok(Datagram::Symbol(packet)) => Answer::Packet(packet.symbol.len()),
        Ok(Datagram::Control { .. }) => Answer::Control,
        Err(refusal) => Answer::Refused(refusal.code(), refusal.detail()),
    }
}

/// The datagram of the empty instance, with these bytes at these places.
pub fn changed(changes: &[(usize, u8)]) -> [u8; 60] {
    let mut bytes = EMPTY_INSTANCE_DATAGRAM;
    for (place, byte) in changes {
        if *place < bytes.len() {
            bytes[*place] = *byte;
        }
    }
    bytes
}
