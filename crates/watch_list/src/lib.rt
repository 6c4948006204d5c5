//! What a run tells of each datagram, and those who listen.
//!
//! A `Watch` hears each event of a run. `Counter` counts them, `Lines` writes a line for each, `Bell`
//! writes one where an instance is installed, and `Diary` keeps them.
#![tactic(auto)]

mod bell;
mod counter;
mod diary;
mod event;
mod event_line;
mod lines;
mod watch;
mod write_event;

pub use bell::Bell;
pub use counter::Counter;
pub use diary::Diary;
pub use event::Event;
pub use lines::Lines;
pub use watch::{Unheard, Watch};
