//! What makes bytes no compound object.

use meta_text::FieldFault;

/// Why bytes are no compound object: the first of these that holds.
#[derive(Clone, Copy, Debug, PartialEq, Eq)]
pub enum CompoundFault {
    /// There are fewer than 8 bytes.
    Short,
    /// The version isn't 0.
    Version,
    /// The header length is below 8, or the header with its filling passes the end.
    HeaderLength,
    /// The metadata's format isn't 0, or its encoding above 1.
    Format,
    /// The metadata is compressed by gzip, which isn't read.
    Gzip,
    /// A byte between metadata and body isn't 0.
    FillNotZero,
    /// The stated checksum isn't the one that was found.
    Checksum { stated: u16, found: u16 },
    /// The metadata is no text of fields. The fault is never `FieldFault::Memory`.
    Fields(FieldFault),
    /// Want of memory.
    Memory,
}
