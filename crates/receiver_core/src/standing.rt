use carousel_cid::Cause;

/// How far a receiver is with an object.
#[derive(Clone, Copy, PartialEq, Eq, Debug)]
pub enum Standing {
    /// Nothing of it is held.
    Unknown,
    /// It isn't ready.
    Partial,
    /// It is ready, and hasn't been looked at since.
    Whole,
    /// It is a file.
    File,
    /// It is the descriptor of the instance with this number.
    Descriptor { number: u32 },
    /// It is neither, for this cause.
    Unusable(Cause),
}
