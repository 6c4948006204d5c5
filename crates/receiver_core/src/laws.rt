//! Laws of what a receiver holds and installs. They speak of the definitions alone.
ghost use Rattle.std.specs.Prelude.{◌≡◌, ◌≤◌, ◌↔◌, ◌++◌, ℕ, List, Option, Some, All};
ghost use Rattle.wire_bytes.specs.Bytes.{AreBytes};
ghost use Rattle.alc_packet.specs.Packet.{SymbolPacket, IsPacket};
ghost use Rattle.carousel_cid.specs.Instances.{Shown};
ghost use Rattle.held_packets.specs.Held.{Held};
ghost use Rattle.held_packets.specs.Verdict.{step, held_after};
ghost use Rattle.held_packets.specs.Whole.{whole};
ghost use Rattle.held_packets.specs.Session.{Session, IsSession, AreOf};
ghost use Rattle.held_packets.specs.KeptSet.{AreOneSet, kept, gathered, set_count};
ghost use Rattle.receiver_core.specs.Best.{Objects, IsBestOf, Extends, NotOlder, complete};
ghost use Rattle.receiver_core.specs.BestOf.{best, installed_after};
ghost use Rattle.receiver_core.specs.Classes.{packets_of, held_with};
ghost use Rattle.receiver_core.specs.InstanceOf.{AreOfBytes, IsInstanceOf, IsBestInstance};
ghost use Rattle.receiver_core.specs.SessionPackets.{ArePacketsOf};
ghost use Rattle.std.specs.List.{fold};

/// Datagrams, one after the other, leave what their packets of the session leave.
pub fn by_packets()
    ensures { (tsi budget : ℕ) (held : Held) (datagrams : List (List ℕ)) → fold (held_with tsi budget) held datagrams ≡ fold (step budget) held (packets_of tsi datagrams) }
{}

/// The packets that are read of datagrams are exactly those that they spell, in order.
pub fn packets_exactly_where_spelled()
    ensures { (tsi : ℕ) (datagrams : List (List ℕ)) (packets : List SymbolPacket) → All AreBytes datagrams
        → (packets_of tsi datagrams ≡ packets) ↔ ArePacketsOf tsi datagrams packets }
{}

/// What is computed of objects is an instance exactly where they have it by the grammar, and the best one exactly where
/// it is the best of those.
pub fn instances_exactly_where_spelled()
    ensures complete { (objects : Objects) (i : Shown) → AreOfBytes objects → (complete objects i.descriptor_toi ≡ Some i) ↔ IsInstanceOf objects i }
    ensures best { (objects : Objects) (r : Option Shown) → AreOfBytes objects → IsBestOf objects r ↔ IsBestInstance objects r }
{}

/// Of some objects there is one best instance, or none.
pub fn one_best()
    ensures { (objects : Objects) (r s : Option Shown) → IsBestOf objects r → IsBestOf objects s → r ≡ s }
{}

/// What is computed is the best instance of what is whole.
pub fn best_is_best()
    ensures held { (held : Held) → IsBestOf (whole held) (best held) }
    ensures installed { (budget : ℕ) (ps : List SymbolPacket) → IsBestOf (whole (held_after budget ps)) (installed_after budget ps) }
{}

/// When more is whole, the best instance isn't older: there is one where there was one, its number isn't lower, and at
/// the same number its descriptor's identifier isn't greater.
pub fn never_older()
    ensures { (first second : Objects) (r s : Option Shown) → Extends first second → IsBestOf first r → IsBestOf second s → NotOlder r s }
{}

/// Two lists of one session's packets with the same kept set have the same instance installed. Where all packets are
/// within the budget, another order of the list and repeats in it change nothing.
pub fn agreement()
    ensures kept { (s : Session) (budget : ℕ) (ps qs : List SymbolPacket) → IsSession s → AreOf s ps → AreOf s qs
        → AreOneSet (kept budget ps) (kept budget qs) → installed_after budget ps ≡ installed_after budget qs }
    ensures any_order { (s : Session) (budget : ℕ) (ps qs : List SymbolPacket) → IsSession s → AreOf s ps → AreOf s qs
        → AreOneSet ps qs → set_count (gathered ps) ≤ budget → installed_after budget ps ≡ installed_after budget qs }
{}

/// No list of packets takes a receiver back to a lower number, of a session or not.
pub fn never_back()
    ensures { (budget : ℕ) (ps qs : List SymbolPacket) → All IsPacket ps → All IsPacket qs
        → NotOlder (installed_after budget ps) (installed_after budget (ps ++ qs)) }
{}
