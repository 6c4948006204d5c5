//! The packets of a file and of the descriptor that lists it, in blocks of two symbols of 25 bytes with one repair symbol.

use crate::objects::{HI_FILE, HI_FILE_REPAIR, LIST_ONE, LIST_ONE_REPAIR};
use crate::packets::{Coding, packet};
use std::alloc::{AllocError, Global};

/// One of these packets.
#[derive(Clone, Copy)]
pub enum Piece {
    /// A symbol of the file `hi`, which is object 1.
    File(u8),
    /// A symbol of the descriptor of instance 1, which is object 2. Its last source symbol is filled with zeros.
    List(u8),
    /// The last source symbol of the descriptor, cut where the object ends.
    Cut,
    /// The same, filled with something else.
    Bad,
}

/// The packets of both, in the order in which they are sent.
pub const ALL: [Piece; 6] = [
    Piece::List(0),
    Piece::List(1),
    Piece::List(2),
    Piece::File(0),
    Piece::File(1),
    Piece::File(2),
];

/// The file, as its sender codes it.
const FILE: Coding = Coding {
    toi: 1,
    length: 50,
    symbol: 25,
    max_block: 2,
    max_n: 3,
};

/// The descriptor that lists it.
pub const LIST: Coding = Coding {
    toi: 2,
    length: 29,
    ..FILE
};

/// These packets.
pub fn packets_of(alloc: Global, pieces: &[Piece]) -> Result<Vec<Vec<u8>>, AllocError> {
    let mut packets = Vec::new(alloc);
    for piece in pieces {
        packets.push(packet_of(alloc, *piece)?)?;
    }
    Ok(packets)
}

fn packet_of(alloc: Global, piece: Piece) -> Result<Vec<u8>, AllocError> {
    match piece {
        Piece::File(esi) => packet(alloc, FILE, esi, file_symbol(esi)),
        Piece::List(esi) => list_packet(alloc, esi),
        Piece::Cut => packet(alloc, LIST, 1, LIST_ONE.split_at(25).1),
        Piece::Bad => filled(alloc, 1),
    }
}

fn file_symbol(esi: u8) -> &'static [u8] {
    let (first, second) = HI_FILE.split_at(25);
    match esi {
        0 => first,
        1 => second,
        _ => HI_FILE_REPAIR,
    }
}

fn list_packet(alloc: Global, esi: u8) -> Result<Vec<u8>, AllocError> {
    match esi {
        0 => packet(alloc, LIST, 0, LIST_ONE.split_at(25).0),
        1 => filled(alloc, 0),
        _ => packet(alloc, LIST, esi, LIST_ONE_REPAIR),
    }
}

/// The last source symbol of the descriptor: the last 4 bytes of the object, this one, and 20 zeros.
fn filled(alloc: Global, filling: u8) -> Result<Vec<u8>, AllocError> {
    let mut symbol = Vec::from_slice(alloc, LIST_ONE.split_at(25).1)?;
    symbol.push(0)?;
    symbol.push(filling)?;
    symbol.extend_from_slice(&[0; 19])?;
    packet(alloc, LIST, 1, symbol.as_slice())
}
