//! What a run asks of the outside: bytes, datagrams, files, a shelf and text.
//!
//! Each kind is a trait. Its ghost members say what an object holds, where it tells that
//! (`told`), and count its faults. Beside the traits stand forms in memory that fail at stated
//! calls (`Mem..`), forms that never fail (`Sure..`), `LogReader`, which reads the datagrams of a
//! packet log, and `LogWriter`, which writes them.
#![tactic(auto)]

mod bytes;
mod calls;
mod datagrams;
mod emit;
mod failed;
mod file_fault;
mod files;
mod fill;
mod finished_instance;
pub mod laws;
mod log_reader;
mod log_writer;
mod mem_bytes;
mod mem_datagrams;
mod mem_emit;
mod mem_files;
mod mem_shelf;
mod mem_text;
mod next;
mod place;
mod shelf;
mod shelved_file;
mod sure_bytes;
mod sure_datagrams;
mod sure_emit;
mod sure_files;
mod sure_shelf;
mod sure_text;
mod text;
mod trouble;

pub use bytes::Bytes;
pub use calls::Calls;
pub use datagrams::Datagrams;
pub use emit::Emit;
pub use failed::Failed;
pub use file_fault::FileFault;
pub use files::Files;
pub use finished_instance::FinishedInstance;
pub use log_reader::LogReader;
pub use log_writer::LogWriter;
pub use mem_bytes::MemBytes;
pub use mem_datagrams::MemDatagrams;
pub use mem_emit::MemEmit;
pub use mem_files::MemFiles;
pub use mem_shelf::MemShelf;
pub use mem_text::MemText;
pub use next::Next;
pub use place::Place;
pub use shelf::Shelf;
pub use shelved_file::ShelvedFile;
pub use sure_bytes::SureBytes;
pub use sure_datagrams::SureDatagrams;
pub use sure_emit::SureEmit;
pub use sure_files::SureFiles;
pub use sure_shelf::SureShelf;
pub use sure_text::SureText;
pub use text::Text;
pub use trouble::Trouble;
