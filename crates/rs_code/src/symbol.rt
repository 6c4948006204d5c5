//! The encoding symbols of a block, and where bytes first differ from one.

ghost use Rattle.std.specs.Prelude.{ℕ, ◌≡◌, ◌≤◌, ◌<◌, ◌+◌, ◌-◌, length, slice_index, unwrap_or, IfSome};
ghost use Rattle.std.specs.List.{range_with_len};
ghost use Rattle.rs_code.specs.SourceRows.{IsSymbolRow, column, rows_of};
ghost use Rattle.rs_code.specs.Symbol.{IsSymbol};
ghost use Rattle.rs_code.specs.Weights.{AreWeights};

use crate::block::Block;
use arrayvec::ArrayVec;
use gf256::{Gf, add, mul, row_add};

/// The byte at a place of symbol `esi` of the block (RFC 5510, section 8.2), by Lagrange's interpolation. The
/// symbols below k are the source rows.
pub fn symbol_byte(block: &Block<'_>, esi: u8, at: usize) -> u8
    requires esi { esi < 255 }
    requires place { at < block.now.size }
    ensures { IsSymbol (column (rows_of block.now) at) esi result }
{
    let mut weights = ArrayVec::new();
    block.weights(esi, &mut weights);
    let mut sum = Gf(0);
    for i in 0..block.k() {
        sum = add(sum, mul(Gf(weights[usize::from(i)]), Gf(block.byte(i, at))));
    }
    sum.0
}

/// Leaves in `out` symbol `esi` of the block. The length of `out` is that of a row. A source symbol is copied; a
/// repair symbol is the sum of the k rows, each with its weight, which is one for all its bytes.
pub fn symbol_into(block: &Block<'_>, esi: u8, out: &mut [u8])
    requires esi { esi < 255 }
    requires size { length out.old ≡ block.now.size }
    ensures { IsSymbolRow (rows_of block.now) block.now.size esi out.new }
{
    if esi < block.k() {
        out.copy_from_slice(block.row(esi));
    } else {
        let mut weights = ArrayVec::new();
        block.weights(esi, &mut weights);
        weigh_rows(block, weights.as_slice(), 0, out);
    }
}

/// The first byte place at which symbol `esi` of the block differs from these bytes with zeros behind them. The
/// symbol is made in pieces of 512 bytes, up to the one that differs.
pub fn first_difference(block: &Block<'_>, esi: u8, bytes: &[u8]) -> Option<usize>
    requires { esi < 255 }
    ensures before { (at : ℕ) → at < unwrap_or result block.now.size → IsSymbol (column (rows_of block.now) at) esi (slice_index bytes.now at) }
    ensures differs { IfSome result (λ at. (at < block.now.size) × (IsSymbol (column (rows_of block.now) at) esi (slice_index bytes.now at) → ⊥)) }
{
    let mut weights = ArrayVec::new();
    block.weights(esi, &mut weights);
    let mut start = 0;
    while start < block.size() {
        let len = (block.size() - start).min(512);
        if let Some(at) = difference_in(block, weights.as_slice(), start, len, bytes) {
            return Some(at);
        }
        start += len;
    }
    None
}

/// The first byte place in a piece of the symbol with these weights at which it differs from these bytes.
fn difference_in(
    block: &Block<'_>,
    weights: &[u8],
    start: usize,
    len: usize,
    bytes: &[u8],
) -> Option<usize>
    requires count { length weights.now ≡ block.now.k }
    requires short { len ≤ 512 }
    requires part { start + len ≤ block.now.size }
    ensures before { (esi : ℕ) → AreWeights (range_with_len 0 block.now.k) esi weights.now
        → (at : ℕ) → start ≤ at → at < unwrap_or result (start + len) → IsSymbol (column (rows_of block.now) at) esi (slice_index bytes.now at) }
    ensures differs { (esi : ℕ) → AreWeights (range_with_len 0 block.now.k) esi weights.now
        → IfSome result (λ at. (at < start + len) × (IsSymbol (column (rows_of block.now) at) esi (slice_index bytes.now at) → ⊥)) }
{
    let _size = block.size();
    let mut room = [0; 512];
    let piece = &mut room[..len];
    weigh_rows(block, weights, start, piece);
    for i in 0..len {
        if piece[i] != byte_at(bytes, start + i) {
            return Some(start + i);
        }
    }
    None
}

/// Leaves in `out` the bytes from `start` on of the sum of the rows, each with its weight.
fn weigh_rows(block: &Block<'_>, weights: &[u8], start: usize, out: &mut [u8])
    requires count { length weights.now ≡ block.now.k }
    requires part { start + length out.old ≤ block.now.size }
    ensures long { length out.new ≡ length out.old }
    ensures symbols { (esi : ℕ) → AreWeights (range_with_len 0 block.now.k) esi weights.now
        → (at : ℕ) → at < length out.new → IsSymbol (column (rows_of block.now) (start + at)) esi (slice_index out.new at) }
    ensures few { block.now.k < 256 }
{
    let _size = block.size();
    let end = start + out.len();
    out.fill(0);
    for i in 0..block.k() {
        row_add(out, &block.row(i)[start..end], Gf(weights[usize::from(i)]));
    }
}

/// The byte at a place, or 0 behind the last.
fn byte_at(bytes: &[u8], at: usize) -> u8
    ensures { result ≡ slice_index bytes.now at }
{
    if at < bytes.len() { bytes[at] } else { 0 }
}
