//! Tests of what a store keeps. There is nothing here but tests.
#![tactic(auto)]

#[cfg(test)]
mod tests;
