//! Runs in which each call of each device fails in turn.
#![tactic(auto)]

#[cfg(test)]
mod tests;
