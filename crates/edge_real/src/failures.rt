//! The failures of a real device.

ghost use Rattle.std.specs.Prelude.{◌≡◌, ◌≤◌, ◌↔◌, Option, OnOk, Some, None, IsOk, IsErrOf};
ghost use Rattle.edge_io.specs.Faults.{Rose, one_more};

use edge_io::Trouble;
use std::io;
use std::io::ErrorKind;

/// The failures of a real device: how many there were, and the last of them, which says in the
/// system's own words what went wrong.
#[derive(Drop)]
pub struct Failures {
    /// How many failures there were, up to `u64::MAX`.
    pub count: u64,
    /// The last failure.
    pub last: Option<io::Error>,
}

impl Failures {
    /// Nothing has failed yet.
    pub fn none() -> Failures
        ensures count { result.count ≡ 0 }
        ensures last { result.last ≡ None }
    {
        Failures {
            count: 0,
            last: None,
        }
    }

    /// Counts and keeps a failure.
    pub fn add(&mut self, error: io::Error)
        ensures last { self.new.last ≡ Some error }
        ensures fault { self.new.count ≡ one_more self.old.count }
        ensures rose { Rose self.old.count self.new.count }
        ensures grows { self.old.count ≤ self.new.count }
    {
        self.count = self.count.saturating_add(1);
        self.last = Some(error);
    }

    /// The answer for what a device did. A refusal of memory is none of the device's failures.
    pub fn judge(&mut self, done: io::Result<()>) -> Result<(), Trouble>
        ensures variant { IsOk result ↔ IsOk done }
        ensures fault { IsErrOf result Trouble.Failed → self.new.count ≡ one_more self.old.count }
        ensures quiet { OnOk result (self.new.count ≡ self.old.count) }
        ensures wants { IsErrOf result Trouble.Memory → self.new.count ≡ self.old.count }
        ensures rose { IsErrOf result Trouble.Failed → Rose self.old.count self.new.count }
        ensures grows { self.old.count ≤ self.new.count }
    {
        match done {
            Ok(()) => Ok(()),
            Err(error) if error.kind() == ErrorKind::OutOfMemory => Err(Trouble::Memory),
            Err(error) => {
                self.add(error);
                Err(Trouble::Failed)
            }
        }
    }
}
