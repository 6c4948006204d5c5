//! The outside of a program as a run asks for it: over real readers, writers, folders and sockets.
//!
//! Each form has a trait of `edge_io`. Forms over real devices tell nothing of their content, and
//! count what fails. `UdpDatagrams` and `UdpEmit` are datagrams over UDP, and the `Placed..` forms
//! choose between a packet log and UDP by the place of `connect`.
#![tactic(auto)]

mod echoed_text;
mod emptying;
mod failures;
mod folder;
mod folder_files;
mod folder_shelf;
mod pace;
mod placed_datagrams;
mod placed_emit;
mod reader_bytes;
mod tried;
mod tries;
mod udp_datagrams;
mod udp_emit;
mod writer_text;

pub use echoed_text::EchoedText;
pub use failures::Failures;
pub use folder::{fill_file, move_in, seal_part, set_aside};
pub use folder_files::FolderFiles;
pub use folder_shelf::FolderShelf;
pub use pace::Pace;
pub use placed_datagrams::PlacedDatagrams;
pub use placed_emit::PlacedEmit;
pub use reader_bytes::ReaderBytes;
pub use tried::Tried;
pub use udp_datagrams::UdpDatagrams;
pub use udp_emit::{DEFAULT_RATE, UdpEmit};
pub use writer_text::WriterText;
