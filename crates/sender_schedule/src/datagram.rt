//! The datagram of a symbol.

ghost use Rattle.std.specs.Prelude.{◌≡◌, ◌≤◌, IfOk, OnOk, OnErr, replicate, vec_len};
ghost use Rattle.oti_blocks.specs.Sent.{block_rows};
ghost use Rattle.sender_schedule.specs.SymbolIds.{IsSymbolId};
ghost use Rattle.object_symbols.specs.SymbolRow.{symbol_row};
ghost use Rattle.sender_schedule.specs.Datagram.{sent_of, packet, datagram};
ghost use Rattle.sender_schedule.specs.Inner.Sending.{CanBeSent};
ghost use Rattle.oti_blocks.specs.Partition.{symbol_of};

use crate::symbol_id::SymbolId;
use alc_packet::{Packet, write};
use object_symbols::{WeightRow, symbol_into};
use sender_plan::SentObject;
use std::alloc::{AllocError, Global};

/// Leaves in `out` the datagram of a symbol of an object. It takes memory for the symbol and for the
/// datagram, and fails only for want of it; then `out` is as it was.
pub(crate) fn datagram_into(
    tsi: u32,
    object: &SentObject,
    id: SymbolId,
    weights: &mut WeightRow,
    out: &mut Vec<u8>,
) -> Result<(), AllocError>
    requires object { CanBeSent object.now }
    requires id { IsSymbolId object.now.oti id }
    ensures ok { OnOk result (out.new.items ≡ datagram tsi object.now id) }
    ensures short { OnOk result (vec_len out.new ≤ 65535) }
    ensures err { OnErr result (out.new.items ≡ out.old.items) }
{
    let alloc = *out.allocator();
    let mut symbol = zeros(alloc, usize::from(object.oti.symbol()))?;
    symbol_into(
        &object.oti,
        object.bytes.as_slice(),
        id.sbn,
        id.esi,
        weights,
        &mut symbol,
    );
    *out = write(alloc, &packet(tsi, object, id, symbol.as_slice()))?;
    Ok(())
}

/// The packet of a symbol with its bytes.
fn packet<'a>(tsi: u32, object: &SentObject, id: SymbolId, symbol: &'a [u8]) -> Packet<'a>
    requires object { CanBeSent object.now }
    requires id { IsSymbolId object.now.oti id }
    requires symbol { symbol.now ≡ symbol_row (block_rows (sent_of object.now) id.sbn) (symbol_of object.now.oti) id.esi }
    ensures { result ≡ packet tsi object.now id }
{
    Packet {
        tsi: u64::from(tsi),
        toi: object.toi,
        oti: object.oti,
        sbn: id.sbn,
        esi: id.esi,
        symbol,
        close: false,
    }
}

/// So many zeros.
fn zeros(alloc: Global, size: usize) -> Result<Vec<u8>, AllocError>
    ensures { IfOk result (λ v. v.items ≡ replicate size 0) }
{
    vec![in alloc; 0u8; size]
}
