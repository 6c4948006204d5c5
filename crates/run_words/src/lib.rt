//! What the words of the command line are to do.
#![tactic(auto)]

mod command;
mod listening;
mod task;

pub use command::read_task;
pub use listening::{Listening, read_listening};
pub use task::Task;
