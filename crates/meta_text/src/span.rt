//! Where a pair stands in the text of its fields.

/// Where a pair stands in the text of its fields: its name up to the middle, its value from there on. Twelve bytes, so
/// that many short pairs take little more than their text.
#[derive(Clone, Copy)]
pub(crate) struct Span {
    pub(crate) start: u32,
    pub(crate) middle: u32,
    pub(crate) end: u32,
}
