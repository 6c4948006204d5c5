//! Writing a packet.

ghost use Rattle.std.specs.Prelude.{◌≡◌, ◌^◌, ◌<◌, ◌++◌, IfOk, OnOk};
ghost use Rattle.alc_packet.specs.Datagram.{Spells, payload_id, payload_of};
ghost use Rattle.alc_packet.specs.Writing.{least_widths, header_of, written};

use crate::datagram::{CODEPOINT, Packet};
use byteorder::{BigEndian, ByteOrder};
use lct_header::Header;
use std::alloc::{AllocError, Global};

/// Writes a packet as a datagram, with the least widths of TSI and TOI in which both numbers fit, one EXT_FTI and no
/// other extension. C, PSI, the reserved bits, CCI and the flag B are zero. It fails only for want of memory.
pub fn write(alloc: Global, packet: &Packet<'_>) -> Result<Vec<u8>, AllocError>
    ensures bytes { IfOk result (λ datagram. datagram.items ≡ written packet.now) }
    ensures spells { IfOk result (λ datagram. Spells datagram.items packet.now) }
{
    let header = header_of(packet);
    let mut datagram = lct_header::write(alloc, &header, &packet.oti.fti())?;
    push_payload(&mut datagram, packet)?;
    Ok(datagram)
}

/// The header of a packet.
fn header_of(packet: &Packet<'_>) -> Header
    ensures { result ≡ header_of packet.now }
{
    let (tsi_bits, toi_bits) = least_widths(packet.tsi, packet.toi);
    Header {
        close_session: packet.close,
        close_object: false,
        tsi: packet.tsi,
        tsi_bits,
        toi: packet.toi,
        toi_bits,
        codepoint: CODEPOINT,
    }
}

/// The least bits of TSI and TOI in which both numbers fit. They are even multiples of 16, or both odd ones.
#[tactic(auto, unfolding(crate::specs::Writing::least_widths))]
fn least_widths(tsi: u64, toi: u128) -> (u8, u8)
    requires { tsi < 2 ^ 48 }
    ensures { result ≡ least_widths tsi toi }
{
    if tsi < 1 << 32 {
        if toi < 1 << 32 {
            return (32, 32);
        }
        if toi < 1 << 64 {
            return (32, 64);
        }
        if toi < 1 << 96 {
            return (32, 96);
        }
    }
    if toi < 1 << 48 {
        return (48, 48);
    }
    if toi < 1 << 80 {
        return (48, 80);
    }
    (48, 112)
}

/// Adds the FEC Payload ID and the symbol.
fn push_payload(datagram: &mut Vec<u8>, packet: &Packet<'_>) -> Result<(), AllocError>
    ensures { OnOk result (datagram.new.items ≡ datagram.old.items ++ payload_of packet.now) }
{
    datagram.extend_from_slice(&payload_id(packet.sbn, packet.esi))?;
    datagram.extend_from_slice(packet.symbol)
}

/// The FEC Payload ID (RFC 5510, section 4.1).
fn payload_id(sbn: u32, esi: u8) -> [u8; 4]
    requires { sbn < 2 ^ 24 }
    ensures { result ≡ payload_id sbn esi }
{
    let mut id = [0u8; 4];
    BigEndian::write_u24(&mut id, sbn);
    id[3] = esi;
    id
}
