//! Objects that come whole, one after another.

use super::objects::{bent, descriptor, file, whole_object};
use super::trial::{Trial, WHOLE, packet, stands, takes};
use receiver_core::Standing;
use std::alloc::{AllocError, Global};
use std::process::Abort;

/// What an object is.
#[derive(Clone, Copy)]
pub enum Content {
    File,
    /// The file under another flag, as if it were compressed.
    Compressed,
    /// The file with another last byte.
    Spoiled,
    /// The descriptor of the instance with this number, and its list.
    Descriptor(u8, &'static str),
}

/// The bytes of an object.
fn bytes_of(alloc: Global, content: Content) -> Result<Vec<u8>, AllocError> {
    match content {
        Content::File => file(alloc),
        Content::Compressed => bent(alloc, file(alloc)?.as_slice(), 1, 1),
        Content::Spoiled => bent(alloc, file(alloc)?.as_slice(), 49, 0x68),
        Content::Descriptor(number, list) => descriptor(alloc, number, list),
    }
}

/// The datagram of an object.
fn datagram_of(alloc: Global, toi: u32, content: Content) -> Result<Vec<u8>, AllocError> {
    let object = bytes_of(alloc, content)?;
    whole_object(alloc, toi, object.as_slice())
}

/// Takes the datagram of an object of which nothing was held, and with which it is whole.
pub fn arrives(rt: &impl Abort, trial: &mut Trial, toi: u32, content: Content, row: u32) {
    let made = datagram_of(trial.alloc, toi, content);
    stands(rt, trial, toi, Standing::Unknown, row);
    takes(rt, trial, &made, packet(toi, WHOLE), row);
    stands(rt, trial, toi, Standing::Whole, row);
}
