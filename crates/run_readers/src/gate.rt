//! The gate before each look.

/// Where each reader passes between its looks.
pub trait Gate: Drop {
    /// Lets the reader of this number pass, from 1 on, which has ended this many looks. Nothing is shown to it meanwhile. It
    /// may wait.
    fn pass(&self, reader: u32, looks: u64);
}

/// A gate that lets each reader pass at once.
#[derive(Drop)]
pub struct Wide;

impl Gate for Wide {
    fn pass(&self, _reader: u32, _looks: u64) {}
}
