//! A shelf that holds the finished instance, and the part that is being put together.

ghost use Rattle.std.specs.Prelude.{◌≡◌, ℕ, ◌≤◌, OnOk, OnErr, IsErrOf};
ghost use Rattle.edge_io.specs.Faults.{Rose};
ghost use Rattle.edge_io.specs.Shelved.{Shelved, begun, with_file, finished};

use crate::Trouble;

/// A shelf that holds the finished instance, if there is one, and the part since `begin`.
pub trait Shelf {
    /// The shelf tells what it holds.
    ghost told: { Self → Type 0 };
    /// What the shelf holds, where it is told.
    ghost holds: { Self → Shelved };
    /// How often the shelf failed.
    ghost faults: { Self → ℕ };

    /// Begins the instance with this number: no finished instance is left, and the part has no
    /// file.
    ///
    /// # Errors
    ///
    /// `Failed` where the device failed, and `Memory`. What is told stays as it was.
    fn begin(&mut self, number: u32) -> Result<(), Trouble>
        ensures ok { OnOk result (told self.old → holds self.new ≡ begun (holds self.old) number) }
        ensures err { OnErr result (told self.old → holds self.new ≡ holds self.old) }
        ensures told { told self.old → told self.new }
        ensures rose { IsErrOf result Trouble.Failed → Rose (faults self.old) (faults self.new) }
        ensures grows { faults self.old ≤ faults self.new };

    /// Puts a file at the part's end.
    ///
    /// # Errors
    ///
    /// `Failed` where the device failed, and `Memory`. What is told stays as it was.
    fn put(&mut self, toi: u128, body: &[u8]) -> Result<(), Trouble>
        ensures ok { OnOk result (told self.old → holds self.new ≡ with_file (holds self.old) toi body.now) }
        ensures err { OnErr result (told self.old → holds self.new ≡ holds self.old) }
        ensures told { told self.old → told self.new }
        ensures rose { IsErrOf result Trouble.Failed → Rose (faults self.old) (faults self.new) }
        ensures grows { faults self.old ≤ faults self.new };

    /// Makes the part, with its manifest, the finished instance. The part stays.
    ///
    /// # Errors
    ///
    /// `Failed` where the device failed, and `Memory`. What is told stays as it was.
    fn finish(&mut self, manifest: &[u8]) -> Result<(), Trouble>
        ensures ok { OnOk result (told self.old → holds self.new ≡ finished (holds self.old) manifest.now) }
        ensures err { OnErr result (told self.old → holds self.new ≡ holds self.old) }
        ensures told { told self.old → told self.new }
        ensures rose { IsErrOf result Trouble.Failed → Rose (faults self.old) (faults self.new) }
        ensures grows { faults self.old ≤ faults self.new };
}
