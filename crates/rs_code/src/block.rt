//! The source rows of a block, and the weights of its symbols.

ghost use Rattle.std.specs.Prelude.{ℕ, ◌≡◌, ◌≤◌, ◌<◌, ◌*◌, length, slice_index};
ghost use Rattle.std.specs.List.{range_with_len};
ghost use Rattle.rs_code.specs.SourceRows.{AreRows, column, rows_of};
ghost use Rattle.rs_code.specs.Weights.{AreWeights};

use crate::places::Places;
use arrayvec::ArrayVec;
use std::marker::Model;

/// The source rows of a block: `k` rows of `size` bytes, one after another in a slice of the caller's. Their places
/// are kept with their shares, which all symbols of the block have in common.
#[derive(Drop)]
pub struct Block<'a> {
    k: u8,
    size: usize,
    bytes: &'a [u8],
    places: Places,
}

impl<'a> Model for Block<'a> {
    ghost use Rattle.std.specs.Prelude.{◌≡◌};
    ghost use Rattle.std.specs.List.{range_with_len};
    ghost use Rattle.rs_code.specs.SourceRows.{AreRows, Rows};

    ghost Value = { Rows };

    ghost view = { λ b. record { k = b.k; size = b.size; bytes = b.bytes.now } };

    ghost invariant = { λ b. AreRows (record { k = b.k; size = b.size; bytes = b.bytes.now }) × (b.places ≡ range_with_len 0 b.k) };
}

impl<'a> Block<'a> {
    /// The block of `k` rows of `size` bytes, at least one of each. The bytes are those of all rows.
    pub fn new(k: u8, size: usize, bytes: &'a [u8]) -> Block<'a>
        requires some { 1 ≤ k }
        requires wide { 1 ≤ size }
        requires whole { length bytes.now ≡ k * size }
        ensures { result ≡ record { k = k; size = size; bytes = bytes.now } }
    {
        let places = Places::sources(k);
        Block {
            k,
            size,
            bytes,
            places,
        }
    }

    /// How many rows there are.
    pub(crate) fn k(&self) -> u8
        ensures count { result ≡ self.now.k }
        ensures rows { AreRows self.now }
    {
        self.k
    }

    /// How many bytes a row has.
    pub(crate) fn size(&self) -> usize
        ensures { result ≡ self.now.size }
    {
        self.size
    }

    /// Leaves in `out` the weight of each row in symbol `esi`.
    pub(crate) fn weights(&self, esi: u8, out: &mut ArrayVec<u8, 255>)
        requires { esi < 255 }
        ensures count { length out.new.items ≡ self.now.k }
        ensures weights { AreWeights (range_with_len 0 self.now.k) esi out.new.items }
    {
        self.places.weights(esi, out);
    }

    /// The byte of row `i` at a place.
    pub(crate) fn byte(&self, i: u8, at: usize) -> u8
        requires row { i < self.now.k }
        requires place { at < self.now.size }
        ensures { result ≡ slice_index (column (rows_of self.now) at) i }
    {
        self.bytes[usize::from(i) * self.size + at]
    }

    /// Row `i`.
    pub(crate) fn row(&self, i: u8) -> &[u8]
        requires { i < self.now.k }
        ensures len { length result.now ≡ self.now.size }
        ensures bytes { (at : ℕ) → at < self.now.size → slice_index result.now at ≡ slice_index (column (rows_of self.now) at) i }
    {
        let start = usize::from(i) * self.size;
        &self.bytes[start..start + self.size]
    }
}
