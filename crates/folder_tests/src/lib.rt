//! Tests of the folder and the files of `edge_real`. There is nothing here but tests.
#![tactic(auto)]

#[cfg(test)]
mod tests;
