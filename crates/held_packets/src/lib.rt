//! The laws of what is held of a session's packets, apart from how it stands in memory.
#![tactic(auto)]

mod kept;
pub mod laws;

pub use kept::Kept;
