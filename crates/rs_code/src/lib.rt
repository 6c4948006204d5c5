//! The systematic Reed-Solomon code of RFC 5510 over GF(256): the symbols of a block of source rows, and the
//! weights with which any k symbols make another. Nothing here takes memory or refuses.
#![tactic(auto)]

mod block;
mod distances;
mod distinct;
pub mod laws;
mod places;
mod symbol;

pub use block::Block;
pub use distinct::are_places;
pub use places::{Places, weights};
pub use symbol::{first_difference, symbol_byte, symbol_into};
