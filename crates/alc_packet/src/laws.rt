//! Laws of datagrams. They speak of the definitions alone.

ghost use Rattle.std.specs.Prelude.{◌≡◌, List, ℕ, Result};
ghost use Rattle.wire_bytes.specs.Bytes.{AreBytes};
ghost use Rattle.alc_packet.specs.declared.datagram.Datagram.{Datagram};
ghost use Rattle.alc_packet.specs.declared.refusal.Refusal.{Refusal};
ghost use Rattle.alc_packet.specs.Answer.{Says};
ghost use Rattle.alc_packet.specs.Reply.{reply};

/// Of each datagram exactly one holds: it spells exactly one packet, it spells exactly one control, exactly one refusal
/// holds of it.
pub fn one_reading()
    ensures some { (d : List ℕ) → AreBytes d → (answer : Result Datagram Refusal) × Says d answer }
    ensures alone { (d : List ℕ) (a b : Result Datagram Refusal) → Says d a → Says d b → a ≡ b }
    ensures computed { (d : List ℕ) (answer : Result Datagram Refusal) → Says d answer → reply d ≡ answer }
{}
