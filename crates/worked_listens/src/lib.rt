//! Worked examples of whole runs of `listen`. There is nothing here but tests.
#![tactic(auto)]

#[cfg(test)]
mod tests;
