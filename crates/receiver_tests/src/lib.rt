//! Tests of what a receiver takes and installs. There is nothing here but tests.
#![tactic(auto)]

#[cfg(test)]
mod tests;
