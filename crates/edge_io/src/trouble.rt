//! Why a call that may take memory didn't do its work.

ghost use Rattle.std.specs.Prelude.{◌≡◌};
ghost use Rattle.edge_io.specs.declared.trouble.Trouble.TheVariants.{Memory};

use std::alloc::{AllocError, AllocFailed};

/// Why a call that may take memory didn't do its work.
#[derive(Clone, Copy, Debug, PartialEq, Eq)]
pub enum Trouble {
    /// The device failed. Its count of faults rose in the call.
    Failed,
    /// Memory ran out.
    Memory,
}

impl From<AllocError> for Trouble {
    ghost from_gives = { λ _ e. e ≡ Memory };

    fn from(_e: AllocError) -> Trouble {
        Trouble::Memory
    }
}

impl<T: Drop> From<AllocFailed<T>> for Trouble {
    ghost from_gives = { λ _ e. e ≡ Memory };

    fn from(_e: AllocFailed<T>) -> Trouble {
        Trouble::Memory
    }
}
