//! The FEC Object Transmission Information of an object, and how it cuts the object into source symbols
//! and blocks (RFC 5052, section 9.1). No call takes memory.
#![tactic(auto)]

mod blocks;
mod fault;
mod information;
pub mod laws;
mod scheme;
mod wire;

pub use fault::OtiFault;
pub use information::Oti;
pub use wire::{FTI_START, FTI_TYPE, read_fti};
