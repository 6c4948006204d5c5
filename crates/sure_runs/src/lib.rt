//! Runs over devices that never fail.
#![tactic(auto)]

mod sure_run;

pub use sure_run::{SureEdge, run_surely};

#[cfg(test)]
mod tests;
