//! The bytes of a real reader, as standard input.

ghost use Rattle.std.specs.Prelude.{◌≡◌, ◌≤◌, [], length, IfOk, OnOk, IsErr};
ghost use Rattle.edge_io.specs.Faults.{Rose, one_more};

use crate::Failures;
use edge_io::{Bytes, Failed};
use std::io::Read;

/// The bytes of a real reader, as standard input. Nothing is told of them.
///
/// It reads as the reader does: over a `BufReader` it asks the system for large pieces. A read that
/// a signal interrupts is a failure, unless a `Tried` stands below.
#[derive(Drop)]
pub struct ReaderBytes<R: Read + Drop> {
    /// The reader.
    pub reader: R,
    /// The reads that failed.
    pub failures: Failures,
}

impl<R: Read + Drop> ReaderBytes<R> {
    /// The bytes of this reader.
    pub fn new(reader: R) -> ReaderBytes<R>
        ensures reader { result.reader ≡ reader }
        ensures failures { result.failures.count ≡ 0 }
    {
        ReaderBytes {
            reader,
            failures: Failures::none(),
        }
    }
}

impl<R: Read + Drop> Bytes for ReaderBytes<R> {
    ghost told = { λ _. ⊥ };

    ghost left = { λ _. [] };

    ghost faults = { λ s. s.failures.count };

    fn read(&mut self, out: &mut [u8]) -> Result<usize, Failed>
        ensures within { IfOk result (λ n. n ≤ length out.new) }
        ensures fault { IsErr result → self.new.failures.count ≡ one_more self.old.failures.count }
        ensures quiet { OnOk result (self.new.failures.count ≡ self.old.failures.count) }
        ensures rose { IsErr result → Rose self.old.failures.count self.new.failures.count }
        ensures grows { self.old.failures.count ≤ self.new.failures.count }
    {
        match self.reader.read(out) {
            Ok(count) => Ok(count),
            Err(error) => {
                self.failures.add(error);
                Err(Failed)
            }
        }
    }
}
