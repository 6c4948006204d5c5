//! Bytes in memory of their own.

ghost use Rattle.std.specs.Prelude.{◌≡◌, IfOk};

use std::alloc::AllocError;
use std::marker::Model;

/// Bytes in memory of their own, as the body of an object.
#[derive(Drop)]
pub struct Blob {
    bytes: Vec<u8>,
}

impl Model for Blob {
    ghost use Rattle.std.specs.Prelude.{ℕ, List};

    ghost Value = { List ℕ };

    ghost view = { λ a. a.bytes.items };
}

impl Blob {
    /// The blob of these bytes.
    pub fn new(bytes: Vec<u8>) -> Blob
        ensures { result ≡ bytes.items }
    {
        Blob { bytes }
    }

    /// The bytes.
    pub fn as_slice(&self) -> &[u8]
        ensures { result.now ≡ self.now }
    {
        self.bytes.as_slice()
    }

    /// The bytes, which takes no memory.
    pub fn into_vec(self) -> Vec<u8>
        ensures { result.items ≡ self }
    {
        self.bytes
    }

    /// A blob with the same bytes.
    pub fn copy(&self) -> Result<Blob, AllocError>
        ensures { IfOk result (λ r. r ≡ self.now) }
    {
        let alloc = *self.bytes.allocator();
        Ok(Blob {
            bytes: Vec::from_slice(alloc, &self.bytes)?,
        })
    }
}
