//! A sink of datagrams.

ghost use Rattle.std.specs.Prelude.{◌≡◌, ℕ, List, Option, Some, [], ◌∷◌, ◌++◌, length, ◌≤◌, All, OnOk, OnErr, IsErrOf};
ghost use Rattle.edge_io.specs.Faults.{Rose};

use crate::{Place, Trouble};

/// A sink of datagrams.
pub trait Emit {
    ghost use Rattle.edge_io.specs.declared.place.Place.{Place};

    /// The sink tells the datagrams that were sent.
    ghost told: { Self → Type 0 };
    /// The datagrams that were sent, where they are told.
    ghost sent: { Self → List (List ℕ) };
    /// The place of the last `connect` that answered `Ok`.
    ghost connected: { Self → Option Place };
    /// How often the sink failed.
    ghost faults: { Self → ℕ };

    /// Connects to the place.
    ///
    /// # Errors
    ///
    /// `Failed` where the device failed, and `Memory`. What was sent stays as it was.
    fn connect(&mut self, place: &Place) -> Result<(), Trouble>
        ensures ok { OnOk result (connected self.new ≡ Some place.now) }
        ensures err { OnErr result (connected self.new ≡ connected self.old) }
        ensures told { told self.old → told self.new }
        ensures sent { told self.old → sent self.new ≡ sent self.old }
        ensures rose { IsErrOf result Trouble.Failed → Rose (faults self.old) (faults self.new) }
        ensures grows { faults self.old ≤ faults self.new };

    /// Sends a datagram of at most 65,535 bytes.
    ///
    /// # Errors
    ///
    /// `Failed` where the device failed, and `Memory`. What was sent stays as it was.
    fn send(&mut self, datagram: &[u8]) -> Result<(), Trouble>
        requires { length datagram.now ≤ 65535 }
        ensures ok { OnOk result (told self.old → sent self.new ≡ sent self.old ++ datagram.now ∷ []) }
        ensures err { OnErr result (told self.old → sent self.new ≡ sent self.old) }
        ensures short { told self.old → All (λ d. length d ≤ 65535) (sent self.old) }
        ensures told { told self.old → told self.new }
        ensures place { connected self.new ≡ connected self.old }
        ensures rose { IsErrOf result Trouble.Failed → Rose (faults self.old) (faults self.new) }
        ensures grows { faults self.old ≤ faults self.new };
}
