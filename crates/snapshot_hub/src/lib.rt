//! Published instances, and looks at them that never wait.
#![tactic(auto)]

mod front;
mod hub;
pub mod laws;
mod look;
mod naming;
mod publisher;
mod rule;
mod snapshot;
mod told;

pub use hub::{Hub, make};
pub use look::{Glance, Look};
pub use naming::Naming;
pub use publisher::Publisher;
pub use told::Told;
