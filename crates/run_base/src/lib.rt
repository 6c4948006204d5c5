//! What all commands of a run share: how they end, their statuses, the bounds of a list, and their lines.
#![tactic(auto)]

mod bound;
mod buffer;
mod ending;
mod fault;
mod lines;
mod list;
mod settings;
mod status;
mod writing;

pub use bound::Bound;
pub use buffer::datagram_buffer;
pub use ending::Ending;
pub use fault::Fault;
pub use lines::{push_ending, push_labelled, push_number, push_text};
pub use list::{Step, next_within};
pub use settings::Settings;
pub use status::{Status, fault_of, number};
pub use writing::{tell, tell_usage, write};
