//! Why bytes begin with no header.

/// The first fault of a datagram's header. A place is counted in bytes from the datagram's start.
#[derive(Clone, Copy, Debug, PartialEq, Eq)]
pub enum HeaderFault {
    /// There are fewer than 4 bytes.
    Short,
    /// The version isn't 1.
    Version,
    /// The stated length is below that of the fixed fields, or above the datagram's.
    LengthField,
    /// The extension at the place `at` has a type below 128 and a length of 0.
    ExtensionZero { at: u64 },
    /// The extension at the place `at` has a type below 128 and ends past the header.
    ExtensionLong { at: u64 },
}
