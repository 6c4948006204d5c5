//! The forms in memory, and the packet log both ways.

mod log_reader;
mod log_writer;
mod mem_files;
mod mem_forms;
mod same;
mod texts;
