//! What each task of a run leaves of the outside, for the top calls.
#![tactic(auto)]

mod edge;

pub use edge::Edge;
