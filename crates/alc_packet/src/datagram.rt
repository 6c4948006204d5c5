//! What a datagram says.

use oti_blocks::Oti;
use std::marker::Model;

/// The codepoint of a packet, which is its FEC Encoding ID (RFC 5510, section 4).
pub(crate) const CODEPOINT: u8 = 5;

/// A packet with one encoding symbol. Its type keeps that the TSI has 48 bits and the TOI 112, that the
/// block and the symbol's place are the object's, and that the symbol has the object's symbol length. The
/// last source symbol of the object is zero behind the object's end, or it is cut there.
#[derive(Debug, Drop)]
pub struct Packet<'a> {
    /// The session (TSI).
    pub tsi: u64,
    /// The object in it (TOI).
    pub toi: u128,
    /// The object's transmission information.
    pub oti: Oti,
    /// The source block number (SBN).
    pub sbn: u32,
    /// The encoding symbol ID (ESI): the symbol's place in its block.
    pub esi: u8,
    /// The symbol's bytes.
    pub symbol: &'a [u8],
    /// Whether it says that the session closes (the flag A).
    pub close: bool,
}

impl<'a> Model for Packet<'a> {
    ghost use Rattle.alc_packet.specs.Packet.{SymbolPacket, IsPacket};

    ghost Value = { SymbolPacket };

    ghost view = { λ a. record { tsi = a.tsi; toi = a.toi; oti = a.oti; sbn = a.sbn; esi = a.esi; symbol = a.symbol.now; close = a.close } };

    ghost invariant = { λ a. IsPacket (record { tsi = a.tsi; toi = a.toi; oti = a.oti; sbn = a.sbn; esi = a.esi; symbol = a.symbol.now; close = a.close }) };
}

/// A datagram of a session.
#[derive(Debug, Drop)]
pub enum Datagram<'a> {
    /// A packet with a symbol.
    Symbol(Packet<'a>),
    /// A header alone, of the session `tsi`.
    Control { tsi: u64, close: bool },
}
