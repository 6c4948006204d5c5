//! A text in memory that is always written.

ghost use Rattle.std.specs.Prelude.{◌≡◌};

use crate::{Text, Trouble};

/// A text in memory that is written as long as there is memory.
#[derive(Drop)]
pub struct SureText {
    /// The bytes that were written.
    pub bytes: Vec<u8>,
}

impl SureText {
    /// A text that has these bytes already.
    pub fn new(bytes: Vec<u8>) -> SureText
        ensures { result.bytes ≡ bytes }
    {
        SureText { bytes }
    }

    /// The bytes that were written.
    pub fn written(&self) -> &[u8]
        ensures { result.now ≡ self.now.bytes.items }
    {
        self.bytes.as_slice()
    }
}

impl Text for SureText {
    ghost told = { λ _. Unit {0} };

    ghost written = { λ s. s.bytes.items };

    ghost faults = { λ _. 0 };

    fn write(&mut self, bytes: &[u8]) -> Result<(), Trouble> {
        self.bytes.extend_from_slice(bytes)?;
        Ok(())
    }
}
