use alc_packet::Refusal;
use object_store::Kept;

/// What a receiver made of a datagram.
#[derive(Clone, Copy, PartialEq, Eq, Debug)]
pub enum Taken {
    /// It is no datagram of ALC as this code takes it; why.
    Refused(Refusal),
    /// It belongs to this other session.
    Elsewhere {
        tsi: u64,
    },
    /// It has no symbol; whether it closes the session.
    Control {
        close: bool,
    },
    /// It is a packet of the session, for this object, source block and encoding symbol.
    Packet {
        toi: u128,
        sbn: u32,
        esi: u8,
        kept: Kept,
    },
}
