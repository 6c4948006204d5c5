//! Files cut into slices, and files joined from them, so that a large file that changes in one place is sent anew in
//! that place alone. A slice is a file itself: its type says so, and its location is the whole file's.
#![tactic(auto)]

mod cutting;
mod fault;
mod groups;
mod joined;
mod joining;
mod kind;
pub mod laws;
mod slice;
mod stop;

pub use cutting::{Piece, cut};
pub use fault::JoinFault;
pub use joined::{Joined, Outcome};
pub use joining::join;
pub use kind::is_slice_kind;
