//! The answer to a look for a name among fields.

/// What fields have under a name.
#[derive(Clone, Copy, Debug, PartialEq, Eq)]
pub enum Field<'a> {
    /// No pair has the name.
    Absent,
    /// One pair has it, with this value.
    Once(&'a str),
    /// More than one pair has it.
    Twice,
}
