//! Tests of the code: worked values of the RFC, and symbols of other programs' making. There is nothing here but tests.
#![tactic(auto)]

#[cfg(test)]
mod tests;
