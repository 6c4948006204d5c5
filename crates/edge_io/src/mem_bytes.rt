//! Bytes in memory that fail at stated calls.

ghost use Rattle.std.specs.Prelude.{◌≡◌, length, drop, ◌+◌, ◌≤◌, ◌<◌, ◌^◌, min, slice_index_or, vec_len, All, IfOk, OnOk, IsErr, IsTrue, ◌↔◌};
ghost use Rattle.edge_io.specs.Faults.{Rose, one_more};
ghost use Rattle.edge_io.specs.Reads.{Reads};
ghost use Rattle.edge_io.specs.StatedCalls.{fails_next, IsNextCall};

use crate::{Bytes, Calls, Failed, SureBytes};

/// Bytes in memory. They are read in pieces of stated sizes, and fail exactly at stated calls.
#[derive(Drop)]
pub struct MemBytes {
    /// The bytes.
    pub source: SureBytes,
    /// The most bytes that each read gives, one after the other. Later reads have no limit.
    pub sizes: Vec<usize>,
    /// How many sizes were used.
    pub used: usize,
    /// The calls that fail.
    pub calls: Calls,
    ghost counted: { used ≤ vec_len sizes },
    ghost positive: { All (λ n. 1 ≤ n) sizes.items },
}

impl MemBytes {
    /// A source of these bytes, with the sizes of its reads, each at least 1, and the numbers of
    /// the calls that fail, counted from 1.
    pub fn new(bytes: Vec<u8>, sizes: Vec<usize>, fails: Vec<u32>) -> MemBytes
        requires { All (λ n. 1 ≤ n) sizes.items }
        ensures bytes { result.source.bytes ≡ bytes }
        ensures at { result.source.at ≡ 0 }
        ensures sizes { result.sizes ≡ sizes }
        ensures used { result.used ≡ 0 }
        ensures fails { result.calls.fails ≡ fails }
        ensures made { result.calls.made ≡ 0 }
        ensures failed { result.calls.failed ≡ 0 }
    {
        MemBytes {
            source: SureBytes::new(bytes),
            sizes,
            used: 0,
            calls: Calls::new(fails),
        }
    }

    /// How many bytes the next read gives at most, for a buffer with this much room.
    fn most(&mut self, room: usize) -> usize
        ensures most { result ≡ min room (slice_index_or self.old.sizes.items self.old.used room) }
        ensures some { 1 ≤ room → 1 ≤ result }
        ensures used { self.new.used ≡ min (self.old.used + 1) (vec_len self.old.sizes) }
        ensures sizes { self.new.sizes ≡ self.old.sizes }
        ensures source { self.new.source ≡ self.old.source }
        ensures calls { self.new.calls ≡ self.old.calls }
    {
        match self.sizes.as_slice().get(self.used) {
            None => room,
            Some(size) => {
                let most = room.min(*size);
                self.used += 1;
                most
            }
        }
    }
}

impl Bytes for MemBytes {
    ghost told = { λ _. Unit {0} };

    ghost left = { λ s. drop s.source.at s.source.bytes.items };

    ghost faults = { λ s. s.calls.failed };

    fn read(&mut self, out: &mut [u8]) -> Result<usize, Failed>
        ensures within { IfOk result (λ n. n ≤ length out.new) }
        ensures bytes { IfOk result (λ n. Reads n out.new (drop self.old.source.at self.old.source.bytes.items) (drop self.new.source.at self.new.source.bytes.items)) }
        ensures fewer { length (drop self.old.source.at self.old.source.bytes.items) < 2 ^ 64 }
        ensures size { IfOk result (λ n. n ≡ min (length (drop self.old.source.at self.old.source.bytes.items))
            (min (length out.new) (slice_index_or self.old.sizes.items self.old.used (length out.new)))) }
        ensures used { OnOk result (self.new.used ≡ min (self.old.used + 1) (vec_len self.old.sizes)) }
        ensures sizes { self.new.sizes ≡ self.old.sizes }
        ensures kept { IsErr result → self.new.source ≡ self.old.source }
        ensures unused { IsErr result → self.new.used ≡ self.old.used }
        ensures exact { IsErr result ↔ IsTrue (fails_next self.old.calls) }
        ensures next { IsNextCall self.old.calls self.new.calls }
        ensures fault { IsErr result → self.new.calls.failed ≡ one_more self.old.calls.failed }
        ensures quiet { OnOk result (self.new.calls.failed ≡ self.old.calls.failed) }
        ensures rose { IsErr result → Rose self.old.calls.failed self.new.calls.failed }
        ensures grows { self.old.calls.failed ≤ self.new.calls.failed }
    {
        if self.calls.fails_now() {
            return Err(Failed);
        }
        let most = self.most(out.len());
        self.source.read(&mut out[..most])
    }
}
