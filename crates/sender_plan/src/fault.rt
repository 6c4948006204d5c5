//! Why a catalog is refused, or a plan.

ghost use Rattle.std.specs.Prelude.{◌≡◌};
ghost use Rattle.sender_plan.specs.declared.fault.CatalogFault.TheVariants as catalog;
ghost use Rattle.sender_plan.specs.declared.fault.PlanFault.TheVariants as plan;

use std::alloc::AllocError;

/// The first bad line of a catalog, counted from 1, and its lowest cause.
#[derive(Clone, Copy)]
pub(crate) struct BadLine {
    pub(crate) line: u64,
    pub(crate) cause: u8,
}

/// Why a text is no catalog.
#[derive(Clone, Copy, Debug, PartialEq, Eq)]
pub enum CatalogFault {
    /// The first bad line, counted from 1 with the ones that are passed over, and the lowest of its causes:
    ///
    /// 1. it isn't UTF-8, or has a control character other than the tab;
    /// 2. its first field is neither `instance` nor `file`, or the number of its fields is neither 2 with `instance`
    ///    nor 3 or 4 with `file`;
    /// 3. the number is no number up to 4,294,967,295;
    /// 4. a `file` line stands before any `instance` line;
    /// 5. the name, the location or the type is empty, or has a space at one of its ends;
    /// 6. it is the 257th `instance` line.
    Line { line: u64, cause: u8 },
    /// Want of memory.
    Memory,
}

impl From<AllocError> for CatalogFault {
    ghost from_gives = { λ _ e. e ≡ catalog.Memory };

    fn from(_e: AllocError) -> CatalogFault {
        CatalogFault::Memory
    }
}

/// Why a catalog isn't planned.
#[derive(Clone, Copy, Debug, PartialEq, Eq)]
pub enum PlanFault {
    /// The number of the instance at this place, counted from 1, isn't above the one before.
    NumberNotRising { at: u64 },
    /// The instance at this place, counted from 1, has more than 4,096 files, repeats counted.
    TooManyFiles { at: u64 },
    /// The bodies have together more than 268,435,456 bytes: so many.
    TooLarge { total: u64 },
    /// The most encoding symbols of a block are fewer than its most source symbols.
    Params,
    /// Want of memory.
    Memory,
}

impl From<AllocError> for PlanFault {
    ghost from_gives = { λ _ e. e ≡ plan.Memory };

    fn from(_e: AllocError) -> PlanFault {
        PlanFault::Memory
    }
}
