//! A source of bytes.

ghost use Rattle.std.specs.Prelude.{ℕ, List, length, ◌≤◌, ◌<◌, ◌^◌, IfOk, OnOk, IsErr};
ghost use Rattle.edge_io.specs.Faults.{Rose};
ghost use Rattle.edge_io.specs.Reads.{Reads};

use crate::Failed;

/// A source of bytes.
pub trait Bytes {
    /// The source tells the bytes that are left.
    ghost told: { Self → Type 0 };
    /// The bytes that are left, where they are told.
    ghost left: { Self → List ℕ };
    /// How often the source failed.
    ghost faults: { Self → ℕ };

    /// Reads at most as many bytes as `out` has room for, to its front, and answers how many.
    /// Zero, where there is room, is the end. Takes no memory.
    ///
    /// # Errors
    ///
    /// `Failed` where the device failed.
    fn read(&mut self, out: &mut [u8]) -> Result<usize, Failed>
        ensures within { IfOk result (λ n. n ≤ length out.new) }
        ensures bytes { IfOk result (λ n. told self.old → Reads n out.new (left self.old) (left self.new)) }
        ensures fewer { told self.old → length (left self.old) < 2 ^ 64 }
        ensures told { OnOk result (told self.old → told self.new) }
        ensures rose { IsErr result → Rose (faults self.old) (faults self.new) }
        ensures grows { faults self.old ≤ faults self.new };
}
