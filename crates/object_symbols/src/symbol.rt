//! The bytes of an encoding symbol.

ghost use Rattle.std.specs.Prelude.{◌≡◌, ℕ, ◌≤◌, ◌<◌, length, slice_index, replicate, bit_xor};
ghost use Rattle.gf256.specs.Field.{product};
ghost use Rattle.oti_blocks.specs.Partition.{blocks, size_at, encoding_at, symbol_of};
ghost use Rattle.oti_blocks.specs.Sent.{IsSent, block_rows};
ghost use Rattle.object_symbols.specs.SymbolRow.{symbol_row};

use crate::source::source_symbol;
use crate::weights::WeightRow;
use gf256::{Gf, row_add};
use oti_blocks::Oti;

/// Leaves in `out` encoding symbol `esi` of block `sbn` of an object of these bytes (RFC 5510, section 8.2). `out` has
/// the length of a symbol and is zero. A source symbol is copied; a repair symbol is the sum of the block's rows, each
/// with its weight. `weights` are those that were made last, for any object; they are made anew where these are others.
pub fn symbol_into(
    oti: &Oti,
    bytes: &[u8],
    sbn: u32,
    esi: u8,
    weights: &mut WeightRow,
    out: &mut [u8],
)
    requires object { IsSent (record { oti = oti.now; bytes = bytes.now }) }
    requires block { sbn < blocks oti.now }
    requires place { esi < encoding_at oti.now sbn }
    requires zero { out.old ≡ replicate (symbol_of oti.now) 0 }
    ensures { out.new ≡ symbol_row (block_rows (record { oti = oti.now; bytes = bytes.now }) sbn) (symbol_of oti.now) esi }
{
    let k = oti.block_k(sbn);
    if esi < k {
        let number = oti.block_start(sbn) + u64::from(esi);
        copy_front(source_symbol(oti, bytes, number), out);
    } else {
        weights.make(k, esi);
        weigh_rows(oti, bytes, sbn, weights, out);
    }
}

/// Copies a row to the front of `out`, which is no shorter.
fn copy_front(row: &[u8], out: &mut [u8])
    requires { length row.now ≤ length out.old }
    ensures len { length out.new ≡ length out.old }
    ensures front { (at : ℕ) → at < length row.now → slice_index out.new at ≡ slice_index row.now at }
    ensures rest { (at : ℕ) → length row.now ≤ at → slice_index out.new at ≡ slice_index out.old at }
{
    out[..row.len()].copy_from_slice(row);
}

/// Leaves in `out` the sum of a block's rows, each with its weight.
fn weigh_rows(oti: &Oti, bytes: &[u8], sbn: u32, weights: &WeightRow, out: &mut [u8])
    requires object { IsSent (record { oti = oti.now; bytes = bytes.now }) }
    requires block { sbn < blocks oti.now }
    requires weights { weights.now.k ≡ size_at oti.now sbn }
    requires zero { out.old ≡ replicate (symbol_of oti.now) 0 }
    ensures { out.new ≡ symbol_row (block_rows (record { oti = oti.now; bytes = bytes.now }) sbn) (symbol_of oti.now) weights.now.esi }
{
    let start = oti.block_start(sbn);
    for i in 0..oti.block_k(sbn) {
        let row = source_symbol(oti, bytes, start + u64::from(i));
        add_front(row, weights.weights[usize::from(i)], out);
    }
}

/// Adds `by` times a row to the front of `out`, which is no shorter.
fn add_front(row: &[u8], by: u8, out: &mut [u8])
    requires { length row.now ≤ length out.old }
    ensures len { length out.new ≡ length out.old }
    ensures sums { (at : ℕ) → at < length out.old → slice_index out.new at ≡ bit_xor (slice_index out.old at) (product by (slice_index row.now at)) }
{
    row_add(&mut out[..row.len()], row, Gf(by));
}
