//! A text that is written.

ghost use Rattle.std.specs.Prelude.{◌≡◌, ℕ, List, ◌++◌, ◌≤◌, OnOk, OnErr, IsErrOf};
ghost use Rattle.edge_io.specs.Faults.{Rose};

use crate::Trouble;

/// A text that is written.
pub trait Text {
    /// The text tells the bytes that were written.
    ghost told: { Self → Type 0 };
    /// The bytes that were written, where they are told.
    ghost written: { Self → List ℕ };
    /// How often the text failed.
    ghost faults: { Self → ℕ };

    /// Writes the bytes at the end.
    ///
    /// # Errors
    ///
    /// `Failed` where the device failed, and `Memory`. What is told stays as it was.
    fn write(&mut self, bytes: &[u8]) -> Result<(), Trouble>
        ensures ok { OnOk result (told self.old → written self.new ≡ written self.old ++ bytes.now) }
        ensures err { OnErr result (told self.old → written self.new ≡ written self.old) }
        ensures told { told self.old → told self.new }
        ensures rose { IsErrOf result Trouble.Failed → Rose (faults self.old) (faults self.new) }
        ensures grows { faults self.old ≤ faults self.new };
}
