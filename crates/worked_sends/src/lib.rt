//! Worked examples of whole runs of `send`, `drill` and `dump`. There is nothing here but tests.
#![tactic(auto)]

#[cfg(test)]
mod tests;
