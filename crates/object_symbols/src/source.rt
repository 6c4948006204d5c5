//! The source symbols of an object.

ghost use Rattle.std.specs.Prelude.{◌≡◌, ℕ, ◌+◌, ◌*◌, ◌≤◌, ◌<◌, length, slice_index};
ghost use Rattle.oti_blocks.specs.Partition.{sources, symbol_of};
ghost use Rattle.oti_blocks.specs.Sent.{IsSent};

use oti_blocks::Oti;

/// The bytes of a source symbol of an object of these bytes, which is counted over the whole object. The object's last
/// one may have fewer bytes than a symbol, and stands for these with zeros behind them.
pub(crate) fn source_symbol<'a>(oti: &Oti, bytes: &'a [u8], number: u64) -> &'a [u8]
    requires object { IsSent (record { oti = oti.now; bytes = bytes.now }) }
    requires within { number < sources oti.now }
    ensures bytes { (at : ℕ) → at < symbol_of oti.now → slice_index result.now at ≡ slice_index bytes.now (number * symbol_of oti.now + at) }
    ensures short { length result.now ≤ symbol_of oti.now }
{
    let size = usize::from(oti.symbol());
    let rest = &bytes[number as usize * size..];
    &rest[..size.min(rest.len())]
}
