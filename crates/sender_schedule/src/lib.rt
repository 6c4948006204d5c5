//! The schedule of a session: the datagrams that a sender sends, one after the other (RFC 6968, section 3). An object
//! goes out symbol by symbol over all its blocks, first the source symbols and then the repair symbols (RFC 5510).
#![tactic(auto)]

mod cycles;
mod datagram;
mod items;
pub mod laws;
mod schedule;
mod symbol_id;

pub use schedule::Schedule;
pub use symbol_id::SymbolId;
