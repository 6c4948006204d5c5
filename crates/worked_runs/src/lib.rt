//! What tests of whole runs share: packets and logs, runs over forms in memory, and what they come to.
#![tactic(auto)]

pub mod deliveries;
pub mod drawn;
pub mod given;
pub mod logs;
pub mod objects;
pub mod packets;
pub mod pieces;
pub mod playing;
pub mod receiving;
pub mod sending;
pub mod telling;
pub mod texts;
