//! The command `drill`: drawn files sent and received inside the program, with losses, repeats and disorder.
#![tactic(auto)]

mod bodies;
mod catalog;
mod command;
mod feed;
mod generator;
mod link;
mod sending;
mod summary;

pub use command::{drill, drill_into};
pub use summary::Summary;
