//! A file on a shelf in memory.

ghost use Rattle.std.specs.Prelude.{◌≡◌, ℕ, List, IfOk};

use std::alloc::AllocError;
use std::marker::Model;

/// A file on a shelf in memory: its identifier and its bytes.
#[derive(Drop)]
pub struct ShelvedFile {
    toi: u128,
    body: Vec<u8>,
}

impl Model for ShelvedFile {
    ghost use Rattle.std.specs.Prelude.{ℕ, List};

    ghost Value = { ℕ × List ℕ };

    ghost view = { λ a. (a.toi, a.body.items) };
}

impl ShelvedFile {
    /// The file with this identifier and these bytes.
    pub fn new(toi: u128, body: Vec<u8>) -> ShelvedFile
        ensures { result ≡ (toi, body.items) }
    {
        ShelvedFile { toi, body }
    }

    /// The identifier.
    pub fn toi(&self) -> u128
        ensures { result ≡ self.now.0 }
    {
        self.toi
    }

    /// The bytes.
    pub fn body(&self) -> &[u8]
        ensures { result.now ≡ self.now.1 }
    {
        self.body.as_slice()
    }

    /// A copy, or want of memory.
    pub fn copy(&self) -> Result<ShelvedFile, AllocError>
        ensures { IfOk result (λ f. f ≡ self.now) }
    {
        Ok(ShelvedFile {
            toi: self.toi,
            body: self.body.clone()?,
        })
    }
}
