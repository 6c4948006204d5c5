//! Why words were not read as a command.

ghost use Rattle.std.specs.Prelude.{◌≡◌};
ghost use Rattle.fcast_words.specs.declared.fault.WordFault.TheVariants.{Memory};

use std::alloc::AllocError;

/// Why words were not read as a command.
#[derive(Clone, Copy, Debug, PartialEq, Eq, Drop)]
pub enum WordFault {
    /// The words are no command.
    Usage,
    /// Want of memory.
    Memory,
}

impl From<AllocError> for WordFault {
    ghost from_gives = { λ _ e. e ≡ Memory };

    fn from(_e: AllocError) -> WordFault {
        WordFault::Memory
    }
}
