//! Blocks from any k of their encoding symbols (RFC 5510, section 8.4), with each row step counted.
#![tactic(auto)]

pub mod laws;
mod solver;
mod source;
mod steps;

pub use solver::solve;
pub use steps::Steps;
