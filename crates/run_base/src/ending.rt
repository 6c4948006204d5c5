//! How the taking of a list ended.

/// How the taking of a list of datagrams ended.
#[derive(Clone, Copy, PartialEq, Eq, Debug)]
pub enum Ending {
    /// The list was read to its end.
    End,
    /// Its log is torn at this place, in bytes.
    Torn(u64),
    /// As many datagrams were taken as may be, and one more came.
    TooMany,
}
