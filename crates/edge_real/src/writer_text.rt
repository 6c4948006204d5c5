//! The text of a real writer, as standard output.

ghost use Rattle.std.specs.Prelude.{◌≡◌, ◌≤◌, [], OnOk, IsErrOf};
ghost use Rattle.edge_io.specs.Faults.{Rose, one_more};

use crate::Failures;
use edge_io::{Text, Trouble};
use std::io::Write;

/// The text of a real writer, as standard output. Nothing is told of it.
///
/// It writes as the writer does: over a `BufWriter` it gives the system large pieces. What the
/// writer still holds goes out with `finish`, which must be called at the end: a writer that is
/// only dropped loses the failure. A write that a signal interrupts is tried again without an end,
/// unless a `Tried` stands right above the device.
#[derive(Drop)]
pub struct WriterText<W: Write + Drop> {
    /// The writer.
    pub writer: W,
    /// The calls that failed.
    pub failures: Failures,
}

impl<W: Write + Drop> WriterText<W> {
    /// The text of this writer.
    pub fn new(writer: W) -> WriterText<W>
        ensures writer { result.writer ≡ writer }
        ensures failures { result.failures.count ≡ 0 }
    {
        WriterText {
            writer,
            failures: Failures::none(),
        }
    }

    /// Writes out what the writer still holds.
    ///
    /// # Errors
    ///
    /// `Failed` where the device failed, and `Memory`.
    pub fn finish(&mut self) -> Result<(), Trouble>
        ensures fault { IsErrOf result Trouble.Failed → self.new.failures.count ≡ one_more self.old.failures.count }
        ensures quiet { OnOk result (self.new.failures.count ≡ self.old.failures.count) }
        ensures wants { IsErrOf result Trouble.Memory → self.new.failures.count ≡ self.old.failures.count }
        ensures rose { IsErrOf result Trouble.Failed → Rose self.old.failures.count self.new.failures.count }
        ensures grows { self.old.failures.count ≤ self.new.failures.count }
    {
        let done = self.writer.flush();
        self.failures.judge(done)
    }
}

impl<W: Write + Drop> Text for WriterText<W> {
    ghost told = { λ _. ⊥ };

    ghost written = { λ _. [] };

    ghost faults = { λ s. s.failures.count };

    fn write(&mut self, bytes: &[u8]) -> Result<(), Trouble>
        ensures fault { IsErrOf result Trouble.Failed → self.new.failures.count ≡ one_more self.old.failures.count }
        ensures quiet { OnOk result (self.new.failures.count ≡ self.old.failures.count) }
        ensures wants { IsErrOf result Trouble.Memory → self.new.failures.count ≡ self.old.failures.count }
        ensures rose { IsErrOf result Trouble.Failed → Rose self.old.failures.count self.new.failures.count }
        ensures grows { self.old.failures.count ≤ self.new.failures.count }
    {
        let done = self.writer.write_all(bytes);
        self.failures.judge(done)
    }
}
