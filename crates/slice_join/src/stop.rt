//! What ends the work on a group early.

ghost use Rattle.std.specs.Prelude.{◌≡◌};
ghost use Rattle.slice_join.specs.declared.stop.Stop.TheVariants.{Fault, Memory};

use crate::fault::JoinFault;
use std::alloc::AllocError;

/// Why a group gives no body.
#[derive(Clone, Copy)]
pub(crate) enum Stop {
    /// Its slices make no file.
    Fault(JoinFault),
    /// Want of memory.
    Memory,
}

impl From<AllocError> for Stop {
    ghost from_gives = { λ _ stop. stop ≡ Memory };

    fn from(_e: AllocError) -> Stop {
        Stop::Memory
    }
}

impl From<JoinFault> for Stop {
    ghost from_gives = { λ fault stop. stop ≡ Fault fault };

    fn from(fault: JoinFault) -> Stop {
        Stop::Fault(fault)
    }
}
