//! Making a packet of its values.

ghost use Rattle.std.specs.Prelude.{◌≡◌, ◌≤◌, ◌^◌, ◌<◌, ◌+◌, ◌==◌, ◌&&◌, not, length, position};
ghost use Rattle.wire_bytes.specs.FirstFault.{first_fault};
ghost use Rattle.oti_blocks.specs.Partition.{IsSound, blocks, size_at};
ghost use Rattle.alc_packet.specs.Packet.{SymbolPacket};
ghost use Rattle.alc_packet.specs.Refusal.{packet_lines, bad_fill, checked};

use crate::datagram::Packet;
use crate::refusal::Refusal;
use oti_blocks::Oti;

impl<'a> Packet<'a> {
    /// The packet with these values, or the first of `BlockOut`, `SymbolOut`, `SymbolLength` and `FillNotZero` that
    /// holds of them. The caller knows that the TSI has at most 48 bits and the TOI at most 112.
    pub fn make(
        tsi: u64,
        toi: u128,
        oti: Oti,
        sbn: u32,
        esi: u8,
        symbol: &'a [u8],
        close: bool,
    ) -> Result<Packet<'a>, Refusal>
        requires tsi { tsi < 2 ^ 48 }
        requires toi { toi < 2 ^ 112 }
        ensures { result ≡ checked (record { tsi = tsi; toi = toi; oti = oti; sbn = sbn; esi = esi; symbol = symbol.now; close = close }) }
    {
        if let Some(refusal) = first_refusal(&oti, sbn, esi, symbol) {
            return Err(refusal);
        }
        Ok(Packet {
            tsi,
            toi,
            oti,
            sbn,
            esi,
            symbol,
            close,
        })
    }
}

/// The first refusal of a packet with these values.
pub(crate) fn first_refusal(oti: &Oti, sbn: u32, esi: u8, symbol: &[u8]) -> Option<Refusal>
    ensures first { (p : SymbolPacket) → p.oti ≡ oti.now → p.sbn ≡ sbn → p.esi ≡ esi → p.symbol ≡ symbol.now → result ≡ first_fault (packet_lines p) }
    ensures sound { IsSound oti.now }
{
    if sbn >= oti.blocks() {
        let detail = u64::from(sbn);
        return Some(Refusal::BlockOut { detail });
    }
    if esi >= oti.block_n(sbn) {
        let detail = u64::from(esi);
        return Some(Refusal::SymbolOut { detail });
    }
    let last = is_last(oti, sbn, esi);
    let end = usize::from(oti.last_length());
    let length = symbol.len();
    if length == usize::from(oti.symbol()) {
        if !last {
            return None;
        }
        let detail = bad_fill(end, symbol)?;
        return Some(Refusal::FillNotZero { detail });
    }
    if last && length == end {
        return None;
    }
    let detail = length as u64;
    Some(Refusal::SymbolLength { detail })
}

/// Whether this is the last source symbol of the object.
fn is_last(oti: &Oti, sbn: u32, esi: u8) -> bool
    requires { sbn < blocks oti.now }
    ensures { result ≡ (sbn + 1 == blocks oti.now && esi + 1 == size_at oti.now sbn) }
{
    let blocks = oti.blocks();
    sbn + 1 == blocks && u16::from(esi) + 1 == u16::from(oti.block_k(sbn))
}

/// The place of the first byte from the place `start` on that isn't 0.
fn bad_fill(start: usize, symbol: &[u8]) -> Option<u64>
    requires { start ≤ length symbol.now }
    ensures { result ≡ bad_fill start symbol.now }
{
    let behind = first_nonzero(&symbol[start..])?;
    Some((start + behind) as u64)
}

fn first_nonzero(bytes: &[u8]) -> Option<usize>
    ensures { result ≡ position (λ x. not (x == 0)) bytes.now }
{
    bytes.iter().position(|byte| *byte != 0)
}
