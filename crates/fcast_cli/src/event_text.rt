//! Standard error as the text of a watcher.

ghost use Rattle.std.specs.Prelude.{[]};

use edge_io::{Text, Trouble};
use edge_real::Tried;
use std::alloc::Global;
use std::io;
use std::io::{BufWriter, Stderr, Write};

/// Standard error, written in pieces. Nothing is told of it. What it still holds goes out when it is dropped.
#[derive(Drop)]
pub struct EventText {
    writer: BufWriter<Tried<Stderr>>,
    /// How often a write failed, up to the end of the type.
    failed: u64,
}

impl EventText {
    /// Standard error, to which nothing is written yet, with the memory for a piece of so many bytes. At 0 each write
    /// goes out at once.
    pub fn new(rt: HostRuntime, alloc: Global, piece: usize) -> io::Result<EventText> {
        Ok(EventText {
            writer: BufWriter::with_capacity(alloc, piece, Tried::new(rt.stderr()))?,
            failed: 0,
        })
    }
}

impl Text for EventText {
    ghost told = { λ _. ⊥ };

    ghost written = { λ _. [] };

    ghost faults = { λ s. s.failed };

    fn write(&mut self, bytes: &[u8]) -> Result<(), Trouble> {
        if self.writer.write_all(bytes).is_err() {
            self.failed = self.failed.saturating_add(1);
            return Err(Trouble::Failed);
        }
        Ok(())
    }
}
