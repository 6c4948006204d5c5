//! The parts of a compound object.

use meta_text::Fields;

/// What a compound object says.
#[derive(Drop)]
pub struct Compound<'a> {
    /// Whether it is a descriptor, and not a file.
    pub descriptor: bool,
    pub fields: Fields,
    /// The body, a part of the bytes that were read.
    pub body: &'a [u8],
}
