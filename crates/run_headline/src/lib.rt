//! The headline's words, and the laws that tie what is sent to what is installed.
#![tactic(auto)]

pub mod laws;
