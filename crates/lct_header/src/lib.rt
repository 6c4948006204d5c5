//! The LCT header of a datagram and its extensions (RFC 5651, section 5). Only `write` takes memory.
#![tactic(auto)]

mod area;
mod extension;
mod fault;
mod header;
pub mod laws;
mod reading;
mod word;
mod writing;

pub use area::Extensions;
pub use extension::Extension;
pub use fault::HeaderFault;
pub use header::{Header, HeaderView, extensions};
pub use reading::read;
pub use writing::write;
