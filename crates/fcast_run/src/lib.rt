//! The top calls: all that the program does.
#![tactic(auto)]

mod beside;
mod doing;
mod events;
mod listen;
mod receive;
mod take;
mod telling;
mod top_call;

pub use listen::run_listen;
pub use run_drill::{Summary, drill_into};
pub use run_readers::{Gate, Wide};
pub use run_tasks::Edge;
pub use telling::tell_all;
pub use top_call::run;
