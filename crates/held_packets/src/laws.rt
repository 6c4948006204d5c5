//! Laws over the definitions alone: what is whole, what a session's packets leave, and what holds of every list.

ghost use Rattle.std.specs.Prelude.{◌≡◌, ◌+◌, ◌≤◌, ◌++◌, ◌∷◌, [], ℕ, List, Some, All, nat_le, true, length, take, fold};
ghost use Rattle.std.specs.FinMap.{get};
ghost use Rattle.oti_blocks.specs.Partition.{ObjectInformation, length_of};
ghost use Rattle.alc_packet.specs.Packet.{SymbolPacket, IsPacket};
ghost use Rattle.held_packets.specs.Held.{Held, joined};
ghost use Rattle.held_packets.specs.HeldPair.{IsHeldPair, AreByteRows};
ghost use Rattle.held_packets.specs.Count.{byte_count};
ghost use Rattle.held_packets.specs.Ready.{is_ready};
ghost use Rattle.held_packets.specs.Verdict.{verdict, step, held_after, is_kept, IsNoDifference};
ghost use Rattle.held_packets.specs.Whole.{whole};
ghost use Rattle.held_packets.specs.ObjectRows.{AreSourceRows};
ghost use Rattle.held_packets.specs.Session.{Session, Sent, IsSession, IsOf, AreOf};
ghost use Rattle.held_packets.specs.KeptSet.{AreOneSet, kept, drops, gathered, set_count, ready_objects};

/// What is held after a list and one packet more is the step from what is held after the list.
pub fn one_packet_more()
    ensures { (budget : ℕ) (ps : List SymbolPacket) (p : SymbolPacket) → held_after budget (ps ++ p ∷ []) ≡ step budget (held_after budget ps) p }
{}

/// Each list of packets leaves a held pair.
pub fn held_is_pair()
    ensures { (budget : ℕ) (ps : List SymbolPacket) → All IsPacket ps → IsHeldPair (held_after budget ps) }
{}

/// The bytes of a ready object are those of the only source rows whose symbols at the held places are the held rows.
pub fn whole_is_one()
    ensures only { (held : Held) (t : ℕ) (o : ObjectInformation) (rows : List ℕ) → IsHeldPair held → get held.objects t ≡ Some o → is_ready held t o ≡ true
        → AreSourceRows held t o rows → whole held t ≡ Some (take (length_of o) rows) }
    // There are such rows, whatever bytes are held.
    ensures some { (held : Held) (t : ℕ) (o : ObjectInformation) → IsHeldPair held → AreByteRows held → get held.objects t ≡ Some o → is_ready held t o ≡ true
        → (rows : List ℕ) × AreSourceRows held t o rows }
{}

/// What is whole stays whole, with the same bytes, whatever packets follow.
pub fn whole_grows()
    ensures { (budget : ℕ) (ps qs : List SymbolPacket) → All IsPacket ps → All IsPacket qs → (t : ℕ) (bytes : List ℕ)
        → whole (held_after budget ps) t ≡ Some bytes → whole (held_after budget (ps ++ qs)) t ≡ Some bytes }
{}

/// No packet of a session differs from what is held of it.
pub fn no_difference()
    ensures { (s : Session) (budget : ℕ) (ps : List SymbolPacket) (p : SymbolPacket) → IsSession s → AreOf s ps → IsOf s p
        → IsNoDifference (verdict budget (held_after budget ps) p) }
{}

/// A packet of a session is kept exactly where it doesn't bring the byte count of the kept set above the budget.
pub fn kept_within_budget()
    ensures { (s : Session) (budget : ℕ) (ps : List SymbolPacket) (p : SymbolPacket) → IsSession s → AreOf s ps → IsOf s p
        → is_kept (verdict budget (held_after budget ps) p) ≡ nat_le (set_count (joined (gathered (kept budget ps)) p)) budget }
{}

/// What is held of a session's packets counts as much as the kept set, which is within the budget.
pub fn one_count()
    ensures count { (s : Session) (budget : ℕ) (ps : List SymbolPacket) → IsSession s → AreOf s ps
        → byte_count (held_after budget ps) ≡ set_count (gathered (kept budget ps)) }
    ensures within { (s : Session) (budget : ℕ) (ps : List SymbolPacket) → IsSession s → AreOf s ps → byte_count (held_after budget ps) ≤ budget }
{}

/// Where all packets of a session's list are within the budget together, all are kept.
pub fn all_kept()
    ensures { (s : Session) (budget : ℕ) (ps : List SymbolPacket) → IsSession s → AreOf s ps → set_count (gathered ps) ≤ budget → kept budget ps ≡ ps }
{}

/// Each packet of a session is kept or over the budget.
pub fn kept_or_dropped()
    ensures { (s : Session) (budget : ℕ) (ps : List SymbolPacket) → IsSession s → AreOf s ps → drops budget ps + length (kept budget ps) ≡ length ps }
{}

/// The same objects are ready in what is held and in the kept set.
pub fn same_ready()
    ensures { (s : Session) (budget : ℕ) (ps : List SymbolPacket) (t : ℕ) (x : Sent) → IsSession s → AreOf s ps → s t ≡ Some x
        → is_ready (held_after budget ps) t x.oti ≡ is_ready (gathered (kept budget ps)) t x.oti }
{}

/// What is whole of a session's packets are its objects that are ready in the kept set, with the session's bytes.
pub fn whole_is_sent()
    ensures { (s : Session) (budget : ℕ) (ps : List SymbolPacket) (t : ℕ) → IsSession s → AreOf s ps
        → whole (held_after budget ps) t ≡ ready_objects s (gathered (kept budget ps)) t }
{}

/// Two lists of one session's packets with the same kept set leave the same objects whole. Within the budget the order
/// of packets and their repeats change nothing of it.
pub fn agreement()
    ensures kept { (s : Session) (budget : ℕ) (ps qs : List SymbolPacket) → IsSession s → AreOf s ps → AreOf s qs
        → AreOneSet (kept budget ps) (kept budget qs) → (t : ℕ) → whole (held_after budget ps) t ≡ whole (held_after budget qs) t }
    ensures any_order { (s : Session) (budget : ℕ) (ps qs : List SymbolPacket) → IsSession s → AreOf s ps → AreOf s qs
        → AreOneSet ps qs → set_count (gathered ps) ≤ budget → (t : ℕ) → whole (held_after budget ps) t ≡ whole (held_after budget qs) t }
{}
