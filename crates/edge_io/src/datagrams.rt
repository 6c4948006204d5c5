//! A source of datagrams.

ghost use Rattle.std.specs.Prelude.{◌≡◌, ℕ, List, Option, Some, length, ◌≤◌, All, OnOk, OnErr};
ghost use Rattle.edge_io.specs.Faults.{Rose};

use crate::{Failed, Next, Place};

/// A source of datagrams.
pub trait Datagrams {
    ghost use Rattle.edge_io.specs.declared.place.Place.{Place};
    ghost use Rattle.edge_io.specs.Nexts.{Answers, IsWithin};

    /// The source tells the datagrams that are left, and whether their log is torn.
    ghost told: { Self → Type 0 };
    /// The datagrams that are left, where they are told.
    ghost left: { Self → List (List ℕ) };
    /// The place at which the log is torn, where it is and where that is told.
    ghost torn: { Self → Option ℕ };
    /// The place of the last `connect` that answered `Ok`.
    ghost connected: { Self → Option Place };
    /// How often the source failed.
    ghost faults: { Self → ℕ };

    /// Connects to the place. Takes no memory.
    ///
    /// # Errors
    ///
    /// `Failed` where the device failed.
    fn connect(&mut self, place: &Place) -> Result<(), Failed>
        ensures ok { OnOk result (connected self.new ≡ Some place.now) }
        ensures err { OnErr result (connected self.new ≡ connected self.old) }
        ensures told { OnOk result (told self.old → told self.new) }
        ensures left { OnOk result (told self.old → left self.new ≡ left self.old) }
        ensures torn { OnOk result (told self.old → torn self.new ≡ torn self.old) }
        ensures rose { OnErr result (Rose (faults self.old) (faults self.new)) }
        ensures grows { faults self.old ≤ faults self.new };

    /// Writes the next datagram to the front of the buffer, which has room for 65,535 bytes.
    /// Takes no memory.
    fn next(&mut self, buffer: &mut [u8]) -> Next
        requires { 65535 ≤ length buffer.old }
        ensures within { IsWithin result buffer.new }
        ensures answer { told self.old → Answers result buffer.new (left self.old) (torn self.old) (left self.new) (torn self.new) (told self.new) }
        ensures short { told self.old → All (λ d. length d ≤ 65535) (left self.old) }
        ensures place { connected self.new ≡ connected self.old }
        ensures rose { result ≡ Next.Failed → Rose (faults self.old) (faults self.new) }
        ensures grows { faults self.old ≤ faults self.new };
}
