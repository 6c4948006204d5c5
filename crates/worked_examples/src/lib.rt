//! Worked examples of whole runs that receive. There is nothing here but tests.
#![tactic(auto)]

#[cfg(test)]
mod tests;
