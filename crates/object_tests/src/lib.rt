//! Tests of metadata fields, compound objects, files and descriptors: spellings that other programs made, and each
//! fault. There is nothing here but tests.
#![tactic(auto)]

#[cfg(test)]
mod tests;
