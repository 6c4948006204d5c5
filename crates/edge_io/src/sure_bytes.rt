//! Bytes in memory that are always read.

ghost use Rattle.std.specs.Prelude.{◌≡◌, drop, ◌≤◌, ◌<◌, ◌^◌, min, length, vec_len, IfOk, IsOk};
ghost use Rattle.edge_io.specs.Reads.{Reads};

use crate::{Bytes, Failed};

/// Bytes in memory that are always read.
#[derive(Drop)]
pub struct SureBytes {
    /// All bytes, those that were read too.
    pub bytes: Vec<u8>,
    /// How many bytes were read.
    pub at: usize,
    ghost within: { at ≤ vec_len bytes },
}

impl SureBytes {
    /// A source of these bytes.
    pub fn new(bytes: Vec<u8>) -> SureBytes
        ensures bytes { result.bytes ≡ bytes }
        ensures at { result.at ≡ 0 }
    {
        SureBytes { bytes, at: 0 }
    }
}

impl Bytes for SureBytes {
    ghost told = { λ _. Unit {0} };

    ghost left = { λ s. drop s.at s.bytes.items };

    ghost faults = { λ _. 0 };

    fn read(&mut self, out: &mut [u8]) -> Result<usize, Failed>
        ensures ok { IsOk result }
        ensures bytes { IfOk result (λ n. Reads n out.new (drop self.old.at self.old.bytes.items) (drop self.new.at self.new.bytes.items)) }
        ensures size { IfOk result (λ n. n ≡ min (length (drop self.old.at self.old.bytes.items)) (length out.new)) }
        ensures fewer { length (drop self.old.at self.old.bytes.items) < 2 ^ 64 }
    {
        let rest = &self.bytes.as_slice()[self.at..];
        let count = rest.len().min(out.len());
        out[..count].copy_from_slice(&rest[..count]);
        self.at += count;
        Ok(count)
    }
}
