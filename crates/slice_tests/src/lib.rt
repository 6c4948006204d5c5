//! Tests of files that are cut into slices and joined from them. There is nothing here but tests.
#![tactic(auto)]

#[cfg(test)]
mod tests;
