//! Files, carousel instance descriptors and installed instances (RFC 6968, section 3).
#![tactic(auto)]

mod adding;
mod entry;
mod file_list;
mod file_of;
mod identifiers;
mod instance;
mod kind;
pub mod laws;
mod list;
mod listed;
mod number;
mod reading;
mod writing;

pub use file_list::FileList;
pub use file_of::FileOf;
pub use identifiers::Identifiers;
pub use instance::Instance;
pub use kind::{Cause, Kind};
pub use listed::Listed;
pub use number::number_below;
pub use reading::{classify, kind_of};
pub use writing::{write_descriptor, write_file};
