//! The command `send`: a catalog and its files, planned and sent.
#![tactic(auto)]

mod bodies;
mod command;
pub mod laws;
mod load;
mod sending;
mod transmit;

pub use command::send;
pub use sending::Sending;
