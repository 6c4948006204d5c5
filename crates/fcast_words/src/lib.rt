//! The words of the command line: which command they are, with the values of its options.
//!
//! The first word is the command. After it come pairs of an option's name and its value, in any order
//! and each option at most once. The crate `clap` reads the pairs, behind this crate's own rules on
//! their shape.
#![tactic(auto)]

mod address;
mod command;
mod command_word;
mod commands;
mod fault;
mod number;
mod options;
mod pairs;
mod parser;
mod read;
mod shape;

pub use command::Command;
pub use fault::WordFault;
pub use read::read_words;
