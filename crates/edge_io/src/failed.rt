//! The answer of a device that failed.

/// The device failed. Its count of faults rose in the call.
#[derive(Clone, Copy, Debug, PartialEq, Eq)]
pub struct Failed;
