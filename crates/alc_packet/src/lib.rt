//! Packets of an ALC session with one encoding symbol each (RFC 5775), with the code of FEC Encoding ID 5
//! (RFC 5510): every datagram is read, and packets are made and written. Only `write` takes memory.
#![tactic(auto)]

mod datagram;
pub mod laws;
mod making;
mod reading;
mod refusal;
mod writing;

pub use datagram::{Datagram, Packet};
pub use reading::read;
pub use refusal::Refusal;
pub use writing::write;
