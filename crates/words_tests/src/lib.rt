//! Tests of the words of the command line: each command with its values, and words that are none. There is nothing here
//! but tests.
#![tactic(auto)]

#[cfg(test)]
mod tests;
