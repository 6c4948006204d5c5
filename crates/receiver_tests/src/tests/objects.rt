//! Objects and datagrams of session 1, as bytes.

use compound_object::checksum;
use std::alloc::{AllocError, Global};

/// The datagram of the descriptor of instance 1 with an empty list, as object 1 of session 1.
/// Header and CCI; TSI and TOI; EXT_FTI with the payload ID behind it; the object.
pub const EMPTY_INSTANCE: [u8; 60] = *b"\x10\xA0\x07\x05\0\0\0\0\0\0\0\x01\0\0\0\x01\
\x40\x03\0\0\0\0\0\x1C\0\x1C\x01\x01\0\0\0\0\x03\0\x9A\xFA\0\0\0\x19Fcast-CID-ID: 1\r\n\0\0\0";

/// An object of session 1: its identifier, its length, the length of its symbols, and the most source and encoding
/// symbols of a block.
#[derive(Clone, Copy)]
pub struct Block {
    pub toi: u32,
    length: u32,
    size: u16,
    max_block: u8,
    max_n: u8,
}

impl Block {
    pub fn new(toi: u32, length: u32, size: u16, max_block: u8, max_n: u8) -> Block {
        Block {
            toi,
            length,
            size,
            max_block,
            max_n,
        }
    }
}

/// These pieces, one behind the other.
pub fn joined(alloc: Global, pieces: &[&[u8]]) -> Result<Vec<u8>, AllocError> {
    let mut out = Vec::new(alloc);
    for piece in pieces {
        out.extend_from_slice(piece)?;
    }
    Ok(out)
}

/// The datagram of a symbol.
pub fn datagram(
    alloc: Global,
    block: &Block,
    sbn: u8,
    esi: u8,
    bytes: &[u8],
) -> Result<Vec<u8>, AllocError> {
    let toi = block.toi.to_be_bytes();
    let length = block.length.to_be_bytes();
    let size = block.size.to_be_bytes();
    let places = [block.max_block, block.max_n, 0, 0, sbn, esi];
    joined(
        alloc,
        &[
            b"\x10\xA0\x07\x05\0\0\0\0\0\0\0\x01",
            &toi,
            b"\x40\x03\0\0",
            &length,
            &size,
            &places,
            bytes,
        ],
    )
}

/// The datagram of an object that is one symbol.
pub fn whole_object(alloc: Global, toi: u32, object: &[u8]) -> Result<Vec<u8>, AllocError> {
    let size = u16::try_from(object.len()).unwrap_or(u16::MAX);
    let block = Block::new(toi, u32::from(size), size, 1, 1);
    datagram(alloc, &block, 0, 0, object)
}

/// The zeros behind a compound object's header of this many bytes.
fn padding(size: usize) -> &'static [u8] {
    match size % 4 {
        1 => &[0, 0, 0],
        2 => &[0, 0],
        3 => &[0],
        _ => &[],
    }
}

/// A compound object whose checksum covers all of it.
fn compound(alloc: Global, flags: u8, metadata: &[u8], body: &[u8]) -> Result<Vec<u8>, AllocError> {
    let size = metadata.len().saturating_add(8);
    let header = u32::try_from(size).unwrap_or(u32::MAX).to_be_bytes();
    let mut object = Vec::from_slice(alloc, &[flags, 0, 0, 0])?;
    object.extend_from_slice(&header)?;
    object.extend_from_slice(metadata)?;
    object.extend_from_slice(padding(size))?;
    object.extend_from_slice(body)?;
    let sum = checksum(object.as_slice()).to_be_bytes();
    put(object.as_mut_slice(), 2, sum[0]);
    put(object.as_mut_slice(), 3, sum[1]);
    Ok(object)
}

/// Puts a byte into a place, where there is one.
fn put(bytes: &mut [u8], place: usize, byte: u8) {
    if place < bytes.len() {
        bytes[place] = byte;
    }
}

/// The file with location `a` and the body `hi`.
pub fn file(alloc: Global) -> Result<Vec<u8>, AllocError> {
    let metadata = b"Content-Location: a\r\nContent-Length: 2\r\n";
    compound(alloc, 2, metadata, b"hi")
}

/// The descriptor of the instance with this number of one digit, which lists these identifiers.
pub fn descriptor(alloc: Global, number: u8, list: &str) -> Result<Vec<u8>, AllocError> {
    let mut metadata = *b"Fcast-CID-ID: 0\r\n";
    metadata[14] = metadata[14].wrapping_add(number);
    compound(alloc, 3, &metadata, list.as_bytes())
}

/// These bytes with another one at a place.
pub fn bent(alloc: Global, bytes: &[u8], place: usize, byte: u8) -> Result<Vec<u8>, AllocError> {
    let mut changed = Vec::from_slice(alloc, bytes)?;
    put(changed.as_mut_slice(), place, byte);
    Ok(changed)
}
