//! What becomes of a list of datagrams that a receiver takes: its outcome, its events, what is shown to an audience,
//! and the end of a run, in which the best instance is installed and reported.
#![tactic(auto)]

mod audience;
mod concluding;
mod event;
pub mod laws;
mod manifest;
mod report;
mod shelve;

pub use audience::{Audience, Nobody, show_installed};
pub use concluding::conclude;
pub use event::event_of;
