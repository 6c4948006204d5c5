//! What is to be done with a packet.

use held_packets::Kept;

/// Whether a packet's symbol joins what is held.
#[derive(Clone, Copy)]
pub enum Judgement {
    /// It joins, and adds so much to the byte count.
    Joins(u64),
    /// It doesn't.
    Stays(Kept),
}
