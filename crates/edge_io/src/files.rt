//! Files that are read by name.

ghost use Rattle.std.specs.Prelude.{◌≡◌, ℕ, List, Option, Some, None, length, ◌≤◌, ◌<◌, IfOk, IsErrOf, IsSomeAnd, vec_len};
ghost use Rattle.edge_io.specs.Faults.{Rose};

use crate::FileFault;

/// Files that are read by name.
pub trait Files {
    /// The files tell what each name stands for.
    ghost told: { Self → Type 0 };
    /// The bytes of the file with this name, where they are told.
    ghost found: { Self → List ℕ → Option (List ℕ) };
    /// How often the device failed.
    ghost faults: { Self → ℕ };
    /// How often a file wasn't there, or was too big.
    ghost misses: { Self → ℕ };

    /// The bytes of the file with this name, at most 16,777,216.
    ///
    /// # Errors
    ///
    /// `Absent` where no file has the name, `TooBig` where the file has more than 16,777,216
    /// bytes, `Failed` where the device failed, and `Memory`.
    fn read(&mut self, name: &str) -> Result<Vec<u8>, FileFault>
        ensures ok { IfOk result (λ v. told self.old → found self.old name.now ≡ Some v.items) }
        ensures size { IfOk result (λ v. vec_len v ≤ 16777216) }
        ensures absent { IsErrOf result FileFault.Absent → told self.old → found self.old name.now ≡ None }
        ensures too_big { IsErrOf result FileFault.TooBig → told self.old → IsSomeAnd (found self.old name.now) (λ bytes. 16777216 < length bytes) }
        ensures told { told self.old → told self.new }
        ensures same { told self.old → (other : List ℕ) → found self.new other ≡ found self.old other }
        ensures missed_absent { IsErrOf result FileFault.Absent → Rose (misses self.old) (misses self.new) }
        ensures missed_too_big { IsErrOf result FileFault.TooBig → Rose (misses self.old) (misses self.new) }
        ensures rose { IsErrOf result FileFault.Failed → Rose (faults self.old) (faults self.new) }
        ensures grows { faults self.old ≤ faults self.new }
        ensures grows_misses { misses self.old ≤ misses self.new };
}
