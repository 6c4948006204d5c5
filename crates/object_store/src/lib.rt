//! What is held of a session's packets.
#![tactic(auto)]

mod block;
mod difference;
mod finding;
mod judgement;
mod object;
mod objects;
mod parts;
mod ready;
mod store;

pub use held_packets::Kept;
pub use store::Store;
