//! What ends a run before its end.

use std::alloc::AllocError;

/// What ended a run before its end.
#[derive(Clone, Copy, PartialEq, Eq, Debug)]
pub enum Fault {
    /// The datagrams failed.
    Datagrams,
    /// The text failed.
    Text,
    /// The sink failed.
    Emit,
    /// The shelf failed.
    Shelf,
    /// The files failed.
    Files,
    /// There was no memory.
    Memory,
}

impl From<AllocError> for Fault {
    ghost use Rattle.std.specs.Prelude.{◌≡◌};
    ghost use Rattle.run_base.specs.declared.fault.Fault.TheVariants.{Memory};

    ghost from_gives = { λ _ e. e ≡ Memory };

    fn from(_error: AllocError) -> Fault {
        Fault::Memory
    }
}
