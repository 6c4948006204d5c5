//! Worked rows of whole runs: each with all that it comes to. There is nothing here but tests.
#![tactic(auto)]

#[cfg(test)]
mod tests;
