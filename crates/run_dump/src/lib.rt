//! The command `dump`: a line for each datagram of a log.
#![tactic(auto)]

mod command;
mod dump_line;

pub use command::dump;
