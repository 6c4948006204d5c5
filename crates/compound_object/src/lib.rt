//! Compound objects: metadata and a body in one run of bytes, under a checksum.
//!
//! The layout is this project's own after RFC 6968, section 3, in outline.
#![tactic(auto)]

mod blob;
mod compound;
mod fault;
pub mod laws;
mod reading;
mod sums;
mod writing;

pub use blob::Blob;
pub use compound::Compound;
pub use fault::CompoundFault;
pub use reading::read;
pub use sums::checksum;
pub use writing::write;
