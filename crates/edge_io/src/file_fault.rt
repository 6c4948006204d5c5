//! Why a file wasn't read.

ghost use Rattle.std.specs.Prelude.{◌≡◌};
ghost use Rattle.edge_io.specs.declared.file_fault.FileFault.TheVariants.{Memory};

use std::alloc::{AllocError, AllocFailed};

/// Why a file wasn't read.
#[derive(Clone, Copy, Debug, PartialEq, Eq)]
pub enum FileFault {
    /// No file has the name. The count of misses rose in the call.
    Absent,
    /// The file has more than 16,777,216 bytes. The count of misses rose in the call.
    TooBig,
    /// The device failed. The count of faults rose in the call.
    Failed,
    /// Memory ran out.
    Memory,
}

impl From<AllocError> for FileFault {
    ghost from_gives = { λ _ e. e ≡ Memory };

    fn from(_e: AllocError) -> FileFault {
        FileFault::Memory
    }
}

impl<T: Drop> From<AllocFailed<T>> for FileFault {
    ghost from_gives = { λ _ e. e ≡ Memory };

    fn from(_e: AllocFailed<T>) -> FileFault {
        FileFault::Memory
    }
}
