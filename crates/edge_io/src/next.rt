//! What a source of datagrams answers.

/// What a source of datagrams answers.
#[derive(Clone, Copy, Debug, PartialEq, Eq)]
pub enum Next {
    /// A datagram of so many bytes, which stand at the front of the buffer.
    Got(usize),
    /// No datagram is left.
    End,
    /// No datagram is left, and the log is torn at this place, counted in bytes from its start.
    Torn(u64),
    /// The device failed. Its count of faults rose in the call.
    Failed,
}
