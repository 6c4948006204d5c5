//! What makes a text no text of fields.

ghost use Rattle.std.specs.Prelude.{◌≡◌};
ghost use Rattle.meta_text.specs.declared.fault.FieldFault.TheVariants.{Memory};

use std::alloc::AllocError;

/// Why a text is no text of fields: the first faulty line, counted from 1, and the first of its causes.
#[derive(Clone, Copy, Debug, PartialEq, Eq)]
pub enum FieldFault {
    /// The line has no colon.
    NoColon { line: u64 },
    /// What stands before its first colon is no name.
    BadName { line: u64 },
    /// What follows its first colon is not UTF-8, or has a control character other than the tab.
    BadValue { line: u64 },
    /// Want of memory.
    Memory,
}

impl From<AllocError> for FieldFault {
    ghost from_gives = { λ _ e. e ≡ Memory };

    fn from(_e: AllocError) -> FieldFault {
        FieldFault::Memory
    }
}
