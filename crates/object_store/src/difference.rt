//! Where a symbol differs from the one that is held at its place.
ghost use Rattle.std.specs.Prelude.{◌≡◌, ◌≤◌, ◌<◌, ◌*◌, ◌^◌, ◌==◌, not, length, slice_index};
ghost use Rattle.std.specs.List.{position_from, zip};
ghost use Rattle.wire_bytes.specs.Bytes.{zero_filled};
ghost use Rattle.object_store.specs.Inner.BlockHeld.{finding_of};
ghost use Rattle.object_store.specs.Inner.BlockRows.{symbol_row};

use crate::finding::Finding;
use rs_code::{Block, first_difference};

/// What a symbol meets at a held place.
pub fn compared(difference: Option<u16>) -> Finding
    ensures { result ≡ finding_of difference }
{
    match difference {
        Some(at) => Finding::Differs(at),
        None => Finding::Same,
    }
}

/// The first byte in which a row and a symbol with zeros behind it differ.
pub fn row_difference(row: &[u8], symbol: &[u8]) -> Option<u16>
    requires symbol { length symbol.now ≤ length row.now }
    requires row { length row.now < 2 ^ 16 }
    ensures { result ≡ position_from (λ p. not (p.0 == p.1)) 0 (zip row.now (zero_filled (length row.now) symbol.now)) }
{
    for at in 0..row.len() {
        if row[at] != byte_at(symbol, at) {
            return Some(at as u16);
        }
    }
    None
}

/// The first byte in which symbol `esi` of `k` source rows and a symbol with zeros behind it differ. It takes no
/// memory: a repair symbol is made piece by piece, up to that byte.
pub fn symbol_difference(k: u8, size: u16, source: &[u8], esi: u8, symbol: &[u8]) -> Option<u16>
    requires some { 1 ≤ k }
    requires size { 1 ≤ size }
    requires source { length source.now ≡ k * size }
    requires esi { esi < 255 }
    requires symbol { length symbol.now ≤ size }
    ensures { result ≡ position_from (λ p. not (p.0 == p.1)) 0 (zip (symbol_row k size source.now esi) (zero_filled size symbol.now)) }
{
    let width = usize::from(size);
    if esi < k {
        let start = usize::from(esi) * width;
        row_difference(&source[start..start + width], symbol)
    } else {
        repair_difference(k, width, source, esi, symbol)
    }
}

/// The same of a symbol that is no source row.
fn repair_difference(k: u8, size: usize, source: &[u8], esi: u8, symbol: &[u8]) -> Option<u16>
    requires some { 1 ≤ k }
    requires size { 1 ≤ size }
    requires fits { size < 2 ^ 16 }
    requires source { length source.now ≡ k * size }
    requires esi { esi < 255 }
    requires symbol { length symbol.now ≤ size }
    ensures { result ≡ position_from (λ p. not (p.0 == p.1)) 0 (zip (symbol_row k size source.now esi) (zero_filled size symbol.now)) }
{
    match first_difference(&Block::new(k, size, source), esi, symbol) {
        Some(at) => Some(at as u16),
        None => None,
    }
}

/// The byte of a symbol with zeros behind it.
fn byte_at(symbol: &[u8], at: usize) -> u8
    ensures { result ≡ slice_index symbol.now at }
{
    if at < symbol.len() { symbol[at] } else { 0 }
}
