//! Tests of published instances: one thread that publishes and looks in turn, and readers beside a publisher. There is
//! nothing here but tests.
#![tactic(auto)]

#[cfg(test)]
mod tests;
