//! The encoding symbols of an object (RFC 5510) by their block and their number in it, over the object's bytes as they
//! are: nothing is copied and nothing filled up before. Nothing here takes memory or refuses.
#![tactic(auto)]

pub mod laws;
mod source;
mod symbol;
mod weights;

pub use symbol::symbol_into;
pub use weights::WeightRow;
