//! Readers in threads beside a receiver: their gate, what they note, and their lines.
#![tactic(auto)]

mod gate;
pub mod laws;
mod lines;
mod reader;
mod seats;
mod stage;

pub use gate::{Gate, Wide};
pub use lines::push_lines;
pub use reader::{Reader, Stopped};
pub use seats::{Needs, end_all, needs_of, start};
pub use stage::Stage;
